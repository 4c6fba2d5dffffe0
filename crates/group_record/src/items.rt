// What a record says of one operation, and what is asked of it alone.
ghost use Rattle.std.specs.Prelude.{◌≡◌};
ghost use Rattle.group_record.specs.OperationItems.{operation_of_item};
ghost use Rattle.group_record.specs.Reading.{is_item};
ghost use Rattle.group_record.specs.ThirdEdition.{item_of_number};

use centering::Centering;
use operation::code::rotation_of_code;
use operation::product::identity;
use operation::{Operation, Translation};

// What a record says of one operation: the code of its rotation, and a translation.
#[derive(Clone, Copy)]
pub struct Item {
    pub code: u32,
    pub translation: Translation,
}

// The item that a number of edition 3 says: code·1728 + x·144 + y·12 + z.
pub fn item_of_number(number: u32) -> Item
    ensures { result ≡ item_of_number number }
{
    let rank = number % 1728;
    let translation = Translation {
        x: (rank / 144) as u8,
        y: (rank / 12 % 12) as u8,
        z: (rank % 12) as u8,
    };
    Item {
        code: number / 1728,
        translation,
    }
}

// A code over 19682 gives the identity; no record that is accepted has one.
pub fn operation_of_item(item: Item) -> Operation
    ensures { result ≡ operation_of_item item }
{
    let rotation = match rotation_of_code(item.code) {
        Some(rotation) => rotation,
        None => identity().rotation,
    };
    Operation {
        rotation,
        translation: item.translation,
    }
}

// The smallest triple of a class is below 12, so a triple that is the smallest is.
pub fn is_item(item: Item, c: Centering) -> bool
    ensures { result ≡ is_item c item }
{
    let t = item.translation;
    item.code < 19683 && c.smallest(t) == t
}
