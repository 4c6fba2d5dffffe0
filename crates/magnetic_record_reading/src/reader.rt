// Reading the record of a magnetic group: the rules of refusals 30 to 35, in order, tried on the bytes as they stand.
ghost use Rattle.std.specs.Prelude.{◌≡◌, ◌+◌, ◌*◌, ◌≤◌, length};
ghost use Rattle.laws.specs.Sorted.{ascending};
ghost use Rattle.laws.specs.Truth.{all};
ghost use Rattle.group_record.specs.Editions.{from_end};
ghost use Rattle.group_record.specs.Rules.{length_fits, are_good};
ghost use Rattle.magnetic_record.specs.Reading.{is_magnetic_item, magnetic_rules};
ghost use Rattle.magnetic_record.specs.Record.{key_before};
ghost use Rattle.magnetic_record.specs.Answers.{reading_of};
ghost use Rattle.magnetic_record_reading.specs.Search.{items_of, item_at};
ghost use Rattle.magnetic_record_reading.specs.Trailer.{read_counted};

use super::group::is_group;
use super::items::{flag_at, key_at, plain_at};
use centering::Centering;
use group_record::Refusal;

// The record of edition 2 that ends where the bytes end.
pub fn read_record(bytes: &[u8]) -> Result<(Centering, usize), Refusal>
    ensures { result ≡ reading_of bytes.now }
{
    let size = bytes.len();
    if size < 10 {
        return Err(Refusal::Short);
    }
    if from_end(bytes, 4) != 2 {
        return Err(Refusal::WrongEdition);
    }
    let Some(c) = Centering::from_byte(from_end(bytes, 5)) else {
        return Err(Refusal::WrongLetter);
    };
    read_counted(bytes, c)
}

// The byte that stands k places before the end.
fn from_end(bytes: &[u8], k: usize) -> u8
    requires { (1 ≤ k) × (k ≤ length bytes.now) }
    ensures { result ≡ from_end bytes.now k }
{
    bytes[bytes.len() - k]
}

fn read_counted(bytes: &[u8], c: Centering) -> Result<(Centering, usize), Refusal>
    requires { 10 ≤ length bytes.now }
    ensures { result ≡ read_counted c bytes.now }
{
    let size = bytes.len();
    let n = from_end(bytes, 3) as usize;
    let stated = from_end(bytes, 2) as usize * 256 + from_end(bytes, 1) as usize;
    if !length_fits(n, stated, size) {
        return Err(Refusal::WrongLength);
    }
    let start = size - stated;
    if !are_items(&bytes[start..], c, n) {
        return Err(Refusal::WrongItem);
    }
    if !is_group(&bytes[start..], c, n) {
        return Err(Refusal::NotAllowed);
    }
    Ok((c, n))
}

// 1 to 96 operations, and the stated length right and within the buffer.
fn length_fits(n: usize, stated: usize, size: usize) -> bool
    ensures { result ≡ length_fits 6 96 n stated size }
{
    if n < 1 || 96 < n {
        return false;
    }
    stated == 6 * n + 5 && stated <= size
}

fn are_items(bytes: &[u8], c: Centering, n: usize) -> bool
    requires { (1 ≤ n) × (n ≤ 96) × (6 * n ≤ length bytes.now) }
    ensures { result ≡ are_good magnetic_rules tt c (items_of n bytes.now) }
{
    items_fit(bytes, c, n) && keys_ascend(bytes, n)
}

fn items_fit(bytes: &[u8], c: Centering, n: usize) -> bool
    requires { (n ≤ 96) × (6 * n ≤ length bytes.now) }
    ensures { result ≡ all (is_magnetic_item c) (items_of n bytes.now) }
{
    for i in 0..n {
        if !is_item(bytes, c, i) {
            return false;
        }
    }
    true
}

// An item of a plain record, and a flag.
fn is_item(bytes: &[u8], c: Centering, i: usize) -> bool
    requires { 6 * i + 6 ≤ length bytes.now }
    ensures { result ≡ is_magnetic_item c (item_at bytes.now i) }
{
    group_record::items::is_item(plain_at(bytes, i), c) && flag_at(bytes, i) <= 1
}

fn keys_ascend(bytes: &[u8], n: usize) -> bool
    requires { (1 ≤ n) × (n ≤ 96) × (6 * n ≤ length bytes.now) }
    ensures { result ≡ ascending key_before (items_of n bytes.now) }
{
    for i in 0..n - 1 {
        if key_at(bytes, i + 1) <= key_at(bytes, i) {
            return false;
        }
    }
    true
}
