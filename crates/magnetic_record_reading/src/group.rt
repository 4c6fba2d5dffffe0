// Which flagged operations a record may hold (refusal 35): every product is made, of operations as numbers, and sought among the items by halving.
ghost use Rattle.std.specs.Prelude.{◌≡◌, ◌+◌, ◌*◌, ◌%◌, ◌≤◌, ◌<◌, length};
ghost use Rattle.laws.specs.Distinct.{has};
ghost use Rattle.laws.specs.Truth.{all};
ghost use Rattle.operation.specs.Product.{product_of};
ghost use Rattle.packed_operation.specs.Number.{said_by, flag_of};
ghost use Rattle.group_record.specs.OperationItems.{item_of};
ghost use Rattle.group_record.specs.Reading.{alike_items, product_listed};
ghost use Rattle.magnetic_record.specs.Reading.{half, flagged_pair_listed, flagged_member, is_magnetic_group};
ghost use Rattle.magnetic_record_reading.specs.Search.{items_of, item_at, GoodPlaces, KeyPlace};
ghost use Rattle.magnetic_record_reading.specs.Numbers.{Packed};

use super::items::{flag_at, key_at, plain_at};
use centering::Centering;
use group_record::items::operation_of_item;
use operation::Operation;
use operation::code::rotation_code;
use operation::product::identity;
use packed_operation::{flag, number, product, said};

// The identity is listed without the flag, every rotation keeps the lattice, and every product is listed with its flag.
pub(crate) fn is_group(bytes: &[u8], c: Centering, n: usize) -> bool
    requires { GoodPlaces n bytes.now }
    ensures { result ≡ is_magnetic_group c (items_of n bytes.now) }
{
    if !is_listed(bytes, c, n, identity(), 0) {
        return false;
    }
    let mut numbers = [0u64; 96];
    pack(bytes, n, &mut numbers);
    all_members(bytes, c, n, &numbers)
}

// Each item as a number, made once, as each is a factor of 2n products.
fn pack(bytes: &[u8], n: usize, numbers: &mut [u64; 96])
    requires { GoodPlaces n bytes.now × (length numbers.old ≡ 96) }
    ensures { Packed n bytes.now numbers.new }
{
    for i in 0..n {
        numbers[i] = number(
            operation_of_item(plain_at(bytes, i)),
            flag_at(bytes, i) as u64,
        );
    }
}

fn all_members(bytes: &[u8], c: Centering, n: usize, numbers: &[u64; 96]) -> bool
    requires { GoodPlaces n bytes.now × Packed n bytes.now numbers.now }
    ensures { result ≡ all (flagged_member c (items_of n bytes.now)) (items_of n bytes.now) }
{
    for i in 0..n {
        if !is_member(bytes, c, n, numbers, i) {
            return false;
        }
    }
    true
}

fn is_member(bytes: &[u8], c: Centering, n: usize, numbers: &[u64; 96], i: usize) -> bool
    requires { GoodPlaces n bytes.now × Packed n bytes.now numbers.now × (i < n) }
    ensures { result ≡ flagged_member c (items_of n bytes.now) (item_at bytes.now i) }
{
    c.keeps(said(numbers[i]).rotation) && are_products(bytes, c, n, numbers, i)
}

// Every product with the left factor i is listed.
fn are_products(bytes: &[u8], c: Centering, n: usize, numbers: &[u64; 96], i: usize) -> bool
    requires { GoodPlaces n bytes.now × Packed n bytes.now numbers.now × (i < n) }
    ensures { result ≡ all (flagged_pair_listed (items_of n bytes.now) c (item_at bytes.now i)) (items_of n bytes.now) }
{
    for j in 0..n {
        if !is_product(bytes, c, n, numbers[i], numbers[j]) {
            return false;
        }
    }
    true
}

// The product of two numbers is listed with its flag.
fn is_product(bytes: &[u8], c: Centering, n: usize, f: u64, g: u64) -> bool
    requires { GoodPlaces n bytes.now }
    ensures { result ≡ product_listed c (half ((flag_of f + flag_of g) % 2) (items_of n bytes.now)) (product_of (said_by f) (said_by g)) }
{
    let Some(h) = product(f, g) else {
        return false;
    };
    is_listed(bytes, c, n, said(h), flag(h))
}

// An operation is listed modulo the lattice, with its flag. Keys ascend, so it can stand at one place only.
fn is_listed(bytes: &[u8], c: Centering, n: usize, f: Operation, flag: u64) -> bool
    requires { GoodPlaces n bytes.now × (flag ≤ 1) }
    ensures { result ≡ has (alike_items c) (item_of f) (half flag (items_of n bytes.now)) }
{
    let key = 2 * rotation_code(f.rotation) as u64 + flag;
    let i = place_of_key(bytes, n, key);
    if n <= i || key_at(bytes, i) != key {
        return false;
    }
    c.congruent(f.translation, plain_at(bytes, i).translation)
}

// How many keys are below a number, found by halving.
// The library's partition_point goes by the elements of a slice, and an item is six of them, so this halves by hand.
fn place_of_key(bytes: &[u8], n: usize, key: u64) -> usize
    requires { GoodPlaces n bytes.now }
    ensures { KeyPlace n bytes.now key result }
{
    let mut low = 0usize;
    let mut high = n;
    while low < high {
        let middle = (low + high) / 2;
        if key_at(bytes, middle) < key {
            low = middle + 1;
            continue;
        }
        high = middle;
    }
    low
}
