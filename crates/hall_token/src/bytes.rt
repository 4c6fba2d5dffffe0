// What single bytes of an N token say: folds, marks, axis letters, and the bytes of its run.
// Ported from data/hall_symbol.rs of moyo 0.21.0, and changed: enums for strings.
ghost use Rattle.std.specs.Prelude.{◌≡◌};
ghost use Rattle.hall_token.specs.Bytes.{fold_of, mark_of, letter_of, run_byte_of};

use super::RunByte;
use hall_axes::{Direction, Fold, Mark};
use operation::Translation;

#[tactic(auto, unfolding(crate::specs::Bytes::fold_of, crate::specs::Bytes::value_at))]
pub(crate) fn fold_of(byte: u8) -> Option<Fold>
    ensures { result ≡ fold_of byte }
{
    match byte {
        b'1' => Some(Fold::One),
        b'2' => Some(Fold::Two),
        b'3' => Some(Fold::Three),
        b'4' => Some(Fold::Four),
        b'6' => Some(Fold::Six),
        _ => None,
    }
}

#[tactic(auto, unfolding(crate::specs::Bytes::mark_of, crate::specs::Bytes::value_at))]
pub(crate) fn mark_of(byte: u8) -> Mark
    ensures { result ≡ mark_of byte }
{
    match byte {
        b'^' => Mark::Single,
        b'=' => Mark::Double,
        _ => Mark::Unmarked,
    }
}

#[tactic(auto, unfolding(crate::specs::Bytes::letter_of, crate::specs::Bytes::value_at))]
pub(crate) fn letter_of(byte: u8) -> Option<Direction>
    ensures { result ≡ letter_of byte }
{
    match byte {
        b'x' => Some(Direction::X),
        b'y' => Some(Direction::Y),
        b'z' => Some(Direction::Z),
        b'*' => Some(Direction::Diagonal),
        _ => None,
    }
}

#[tactic(auto, unfolding(crate::specs::Bytes::run_byte_of, crate::specs::Bytes::value_at))]
pub(crate) fn run_byte(byte: u8) -> RunByte
    ensures { result ≡ run_byte_of byte }
{
    match byte {
        b'1' => RunByte::Screw(1),
        b'2' => RunByte::Screw(2),
        b'3' => RunByte::Screw(3),
        b'4' => RunByte::Screw(4),
        b'5' => RunByte::Screw(5),
        b'6' => RunByte::Screw(6),
        b'a' => RunByte::Letter(Translation { x: 6, y: 0, z: 0 }),
        b'b' => RunByte::Letter(Translation { x: 0, y: 6, z: 0 }),
        b'c' => RunByte::Letter(Translation { x: 0, y: 0, z: 6 }),
        b'n' => RunByte::Letter(Translation { x: 6, y: 6, z: 6 }),
        b'u' => RunByte::Letter(Translation { x: 3, y: 0, z: 0 }),
        b'v' => RunByte::Letter(Translation { x: 0, y: 3, z: 0 }),
        b'w' => RunByte::Letter(Translation { x: 0, y: 0, z: 3 }),
        b'd' => RunByte::Letter(Translation { x: 3, y: 3, z: 3 }),
        b'\'' => RunByte::Prime,
        _ => RunByte::Foreign,
    }
}
