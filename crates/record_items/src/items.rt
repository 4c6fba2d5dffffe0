// The items of a record: where each stands in its edition, and what its bytes say. Of what reads records only this file knows how many bytes an item takes.
ghost use Rattle.std.specs.Prelude.{◌≡◌, ◌+◌, ◌*◌, ◌≤◌, length, drop};
ghost use Rattle.group_record.specs.BothEditions.{width_in};
ghost use Rattle.group_record.specs.FirstEdition.{item_in};
ghost use Rattle.group_record.specs.ThirdEdition.{numbered_item_in};
ghost use Rattle.group_record.specs.Reading.{operation_of_item};
ghost use Rattle.record_items.specs.Items.{item_at, operation_in};

use group_record::Edition;
use group_record::items::{Item, item_of_number, operation_of_item};
use operation::product::identity;
use operation::{Operation, Translation};

// How many bytes n items take. A record states its count in a byte.
pub fn items_length(edition: Edition, n: u8) -> usize
    ensures { result ≡ width_in edition * n }
{
    match edition {
        Edition::First => 5 * (n as usize),
        Edition::Third => 4 * (n as usize),
    }
}

pub(crate) fn item_at(bytes: &[u8], edition: Edition, i: usize) -> Item
    requires { width_in edition * i + width_in edition ≤ length bytes.now }
    ensures { result ≡ item_at edition bytes.now i }
{
    match edition {
        Edition::First => first_item(bytes, 5 * i),
        Edition::Third => third_item(bytes, 4 * i),
    }
}

// The code, high byte first, then x y z.
fn first_item(bytes: &[u8], at: usize) -> Item
    requires { at + 5 ≤ length bytes.now }
    ensures { result ≡ item_in (drop at bytes.now) }
{
    let code = bytes[at] as u32 * 256 + bytes[at + 1] as u32;
    let translation = Translation {
        x: bytes[at + 2],
        y: bytes[at + 3],
        z: bytes[at + 4],
    };
    Item { code, translation }
}

// One number, high byte first.
fn third_item(bytes: &[u8], at: usize) -> Item
    requires { at + 4 ≤ length bytes.now }
    ensures { result ≡ numbered_item_in (drop at bytes.now) }
{
    let high = bytes[at] as u32 * 256 + bytes[at + 1] as u32;
    let low = bytes[at + 2] as u32 * 256 + bytes[at + 3] as u32;
    let number = high * 65536 + low;
    item_of_number(number)
}

// The operation of the item at a place; the identity where the bytes have no item there.
pub fn operation_in(bytes: &[u8], edition: Edition, i: u8) -> Operation
    ensures { result ≡ operation_in edition bytes.now i }
{
    let end = items_length(edition, i) + items_length(edition, 1);
    if bytes.len() < end {
        return identity();
    }
    operation_at(bytes, edition, i as usize)
}

pub(crate) fn operation_at(bytes: &[u8], edition: Edition, i: usize) -> Operation
    requires { width_in edition * i + width_in edition ≤ length bytes.now }
    ensures { result ≡ operation_of_item (item_at edition bytes.now i) }
{
    operation_of_item(item_at(bytes, edition, i))
}
