// Which operations a record may hold (refusal 35), decided with few products: every product is listed if it is so with right factors from which all come.
ghost use Rattle.std.specs.Prelude.{◌≡◌, ◌+◌, ◌*◌, ◌≤◌, ◌<◌, length, unwrap_or, IfSome};
ghost use Rattle.laws.specs.Growth.{place};
ghost use Rattle.laws.specs.Truth.{all};
ghost use Rattle.operation.specs.Product.{product_of};
ghost use Rattle.group_record.specs.BothEditions.{width_in};
ghost use Rattle.group_record.specs.Record.{item_of};
ghost use Rattle.group_record.specs.Reading.{operation_of_item, alike_items, keeps_item, is_allowed};
ghost use Rattle.group_record.specs.ReadingTests.{GoodItems};
ghost use Rattle.group_record.specs.Criterion.{Right, KeepsInto};
ghost use Rattle.group_record.specs.Closing.{listed_at, product_at, Decides, Made, Widenable, WidenedTo};
ghost use Rattle.record_items.specs.Items.{items_of, item_at, operations_of};

use super::items::{item_at, operation_at};
use centering::Centering;
use group_record::Edition;
use operation::code::rotation_code;
use operation::product::{identity, mul};
use operation::{Operation, Translation};

// Every rotation keeps the lattice, the identity is listed, and so is every product.
pub(crate) fn is_allowed(bytes: &[u8], edition: Edition, c: Centering, n: usize) -> bool
    requires { (n ≤ 48) × (width_in edition * n ≤ length bytes.now) × GoodItems c (items_of edition n bytes.now) }
    ensures { result ≡ is_allowed c (items_of edition n bytes.now) }
{
    if !all_keep(bytes, edition, c, n) {
        return false;
    }
    let Some(e) = product_at(bytes, edition, c, n, identity(), identity()) else {
        return false;
    };
    every_product(bytes, edition, c, n, e)
}

fn all_keep(bytes: &[u8], edition: Edition, c: Centering, n: usize) -> bool
    requires { (n ≤ 48) × (width_in edition * n ≤ length bytes.now) }
    ensures { result ≡ all (keeps_item c) (items_of edition n bytes.now) }
{
    for i in 0..n {
        if !c.keeps(operation_at(bytes, edition, i).rotation) {
            return false;
        }
    }
    true
}

// Each operation is a right factor that was reached, or its column is made, and what can be reached with it.
fn every_product(bytes: &[u8], edition: Edition, c: Centering, n: usize, e: usize) -> bool
    requires { (n ≤ 48) × (width_in edition * n ≤ length bytes.now) × GoodItems c (items_of edition n bytes.now)
        × KeepsInto c (operations_of edition n bytes.now) × (e < n)
        × Right c (operations_of edition n bytes.now) (listed_at (operations_of edition n bytes.now) e) }
    ensures { Decides c (operations_of edition n bytes.now) n result }
{
    let mut columns = [0u8; 240];
    let mut stored = 0usize;
    let mut known = [0u8; 48];
    known[e] = 1;
    let mut members = [0u8; 48];
    members[0] = e as u8;
    let mut count = 1usize;
    for j in 0..n {
        if known[j] == 1 {
            continue;
        }
        // A right factor that was not reached at least doubles what is reached of a group, so five columns are all that 48 operations take;
        // a sixth of something else takes the place of the fifth.
        let slot = stored.min(4);
        if !make_column(bytes, edition, c, n, j, &mut columns, 48 * slot) {
            return false;
        }
        stored = slot + 1;
        count = widen(&mut known, &mut members, count, &columns, stored);
    }
    true
}

// The indices of the products with the right factor j, from a place on; not so where one of them is not listed.
fn make_column(
    bytes: &[u8],
    edition: Edition,
    c: Centering,
    n: usize,
    j: usize,
    columns: &mut [u8],
    at: usize,
) -> bool
    requires { (n ≤ 48) × (width_in edition * n ≤ length bytes.now) × (j < n) × (at + 48 ≤ 240) × (length columns.old ≡ 240)
        × GoodItems c (items_of edition n bytes.now) }
    ensures { Made c (operations_of edition n bytes.now) (operation_of_item (item_at edition bytes.now j)) at
        columns.old columns.new result }
{
    let g = operation_at(bytes, edition, j);
    for i in 0..n {
        let Some(k) = product_at(bytes, edition, c, n, operation_at(bytes, edition, i), g) else {
            return false;
        };
        columns[at + i] = k as u8;
    }
    true
}

// What was reached, and all that columns lead to from there: noted as known, and as members in the order in which they were reached. The answer is
// how many they are.
fn widen(
    known: &mut [u8],
    members: &mut [u8],
    count: usize,
    columns: &[u8; 240],
    stored: usize,
) -> usize
    requires { Widenable known.old members.old count columns.now stored }
    ensures { WidenedTo known.old members.old count columns.now stored known.new members.new result }
{
    let mut reached = count;
    for i in 0..48 {
        if reached <= i {
            break;
        }
        let p = members[i] as usize;
        for j in 0..stored {
            let q = columns[48 * j + p] as usize;
            if known[q] == 1 {
                continue;
            }
            if 48 <= reached {
                return reached;
            }
            known[q] = 1;
            members[reached] = q as u8;
            reached += 1;
        }
    }
    reached
}

// The index of the listed operation that is f times g modulo the lattice.
fn product_at(
    bytes: &[u8],
    edition: Edition,
    c: Centering,
    n: usize,
    f: Operation,
    g: Operation,
) -> Option<usize>
    requires { (n ≤ 48) × (width_in edition * n ≤ length bytes.now) }
    ensures { (unwrap_or result n ≡ product_at c (items_of edition n bytes.now) (product_of f g)) × IfSome result (λ k. k < n) }
{
    let Some(h) = mul(f, g) else {
        return None;
    };
    listed_at(bytes, edition, c, n, h)
}

// The index of the first listed operation that is f modulo the lattice.
fn listed_at(bytes: &[u8], edition: Edition, c: Centering, n: usize, f: Operation) -> Option<usize>
    requires { (n ≤ 48) × (width_in edition * n ≤ length bytes.now) }
    ensures { (unwrap_or result n ≡ place (alike_items c) (item_of f) (items_of edition n bytes.now)) × IfSome result (λ k. k < n) }
{
    let code = rotation_code(f.rotation);
    for i in 0..n {
        if alike(bytes, edition, c, i, code, f.translation) {
            return Some(i);
        }
    }
    None
}

fn alike(bytes: &[u8], edition: Edition, c: Centering, i: usize, code: u32, t: Translation) -> bool
    requires { width_in edition * i + width_in edition ≤ length bytes.now }
    ensures { result ≡ alike_items c (record { code = code; translation = t }) (item_at edition bytes.now i) }
{
    let item = item_at(bytes, edition, i);
    code == item.code && c.congruent(t, item.translation)
}
