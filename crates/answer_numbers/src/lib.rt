// An answer as one number: a value stands as it is, and a refusal has its number in the top byte and its place below.
#![tactic(auto)]

ghost use Rattle.std.specs.Prelude.{◌≡◌};
ghost use Rattle.answer_numbers.specs.Packing.{told_number, operation_number};

use operation::Operation;
use operation::code::rotation_code;

// 2⁵⁶: where the top byte begins.
const TOP_BYTE: u64 = 72057594037927936;

// A place of R8 is at most 80; of any other number the lowest 32 bits are told, so that every answer fits.
pub fn refused(number: u8, place: usize) -> u64
    ensures { result ≡ told_number number place }
{
    (number as u64) * TOP_BYTE + (place % 4294967296) as u64
}

pub fn operation_number(o: Operation) -> u64
    ensures { result ≡ operation_number o }
{
    let r = o.rotation;
    let t = o.translation;
    (rotation_code(r) as u64) * 1728 + (t.x as u64) * 144 + (t.y as u64) * 12 + t.z as u64
}
