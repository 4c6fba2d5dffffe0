// The rules on the items of a record: refusals 34 and 35, tried on the bytes as they stand.
ghost use Rattle.std.specs.Prelude.{◌≡◌, ◌+◌, ◌*◌, ◌≤◌, length};
ghost use Rattle.laws.specs.Sorted.{ascending};
ghost use Rattle.laws.specs.Truth.{all};
ghost use Rattle.group_record.specs.BothEditions.{width_in};
ghost use Rattle.group_record.specs.Reading.{is_item, item_before, are_items};
ghost use Rattle.record_items.specs.Items.{items_of};
ghost use Rattle.record_items.specs.Rules.{items_there, items_answer};

use super::allowed::is_allowed;
use super::items::{item_at, items_length};
use centering::Centering;
use group_record::items::is_item;
use group_record::{Edition, Reading, Refusal};

// What is answered of n items under a lattice: 33 where there are not so many, else 34, 35 or nothing against them. How many there are is tested once a call.
pub fn items_answer(bytes: &[u8], edition: Edition, c: Centering, n: usize) -> Reading
    ensures { result ≡ items_answer edition c n bytes.now }
{
    if !are_there(bytes, edition, n) {
        return Reading::Refused(Refusal::WrongLength);
    }
    if !are_items(bytes, edition, c, n) {
        return Reading::Refused(Refusal::WrongItem);
    }
    if !is_allowed(bytes, edition, c, n) {
        return Reading::Refused(Refusal::NotAllowed);
    }
    Reading::Accepted
}

// 1 to 48 items, and bytes for them.
fn are_there(bytes: &[u8], edition: Edition, n: usize) -> bool
    ensures { result ≡ items_there edition n bytes.now }
{
    1 <= n && n <= 48 && items_length(edition, n as u8) <= bytes.len()
}

fn are_items(bytes: &[u8], edition: Edition, c: Centering, n: usize) -> bool
    requires { (1 ≤ n) × (n ≤ 48) × (width_in edition * n ≤ length bytes.now) }
    ensures { result ≡ are_items c (items_of edition n bytes.now) }
{
    items_fit(bytes, edition, c, n) && codes_ascend(bytes, edition, n)
}

fn items_fit(bytes: &[u8], edition: Edition, c: Centering, n: usize) -> bool
    requires { (n ≤ 48) × (width_in edition * n ≤ length bytes.now) }
    ensures { result ≡ all (is_item c) (items_of edition n bytes.now) }
{
    for i in 0..n {
        if !is_item(item_at(bytes, edition, i), c) {
            return false;
        }
    }
    true
}

fn codes_ascend(bytes: &[u8], edition: Edition, n: usize) -> bool
    requires { (1 ≤ n) × (n ≤ 48) × (width_in edition * n ≤ length bytes.now) }
    ensures { result ≡ ascending item_before (items_of edition n bytes.now) }
{
    for i in 0..n - 1 {
        let item = item_at(bytes, edition, i);
        let next = item_at(bytes, edition, i + 1);
        if next.code <= item.code {
            return false;
        }
    }
    true
}
