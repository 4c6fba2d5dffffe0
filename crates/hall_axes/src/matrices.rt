// The twenty rotations, by fold and axis, and the sign.
// Ported from data/hall_symbol.rs of moyo 0.21.0 (`parse_rotation_matrix`), and changed: enums for strings.
ghost use Rattle.std.specs.Prelude.{◌≡◌, ◌-◌, ◌/◌, ◌%◌};
ghost use Rattle.hall_axes.specs.Matrices.{turn_of, signed};
ghost use Rattle.hall_axes.specs.Packed.{packed_turn};

use super::{Axis, Direction, Fold, Mark};
use operation::Rotation;

// A rotation is one octal number, by rows, each digit an entry plus one. About a marked axis fold 2 alone has one.
fn packed_turn(fold: Fold, about: Axis) -> Option<u32>
    ensures { result ≡ packed_turn about.mark fold about.direction }
{
    match (about.mark, fold, about.direction) {
        (Mark::Unmarked, Fold::One, Direction::Z) => Some(0o211_121_112),
        (Mark::Unmarked, Fold::Two, Direction::X) => Some(0o211_101_110),
        (Mark::Unmarked, Fold::Two, Direction::Y) => Some(0o011_121_110),
        (Mark::Unmarked, Fold::Two, Direction::Z) => Some(0o011_101_112),
        (Mark::Unmarked, Fold::Three, Direction::X) => Some(0o211_110_120),
        (Mark::Unmarked, Fold::Three, Direction::Y) => Some(0o012_121_011),
        (Mark::Unmarked, Fold::Three, Direction::Z) => Some(0o101_201_112),
        (Mark::Unmarked, Fold::Three, Direction::Diagonal) => Some(0o112_211_121),
        (Mark::Unmarked, Fold::Four, Direction::X) => Some(0o211_110_121),
        (Mark::Unmarked, Fold::Four, Direction::Y) => Some(0o112_121_011),
        (Mark::Unmarked, Fold::Four, Direction::Z) => Some(0o101_211_112),
        (Mark::Unmarked, Fold::Six, Direction::X) => Some(0o211_120_121),
        (Mark::Unmarked, Fold::Six, Direction::Y) => Some(0o112_121_012),
        (Mark::Unmarked, Fold::Six, Direction::Z) => Some(0o201_211_112),
        (Mark::Single, Fold::Two, Direction::X) => Some(0o011_110_101),
        (Mark::Single, Fold::Two, Direction::Y) => Some(0o110_101_011),
        (Mark::Single, Fold::Two, Direction::Z) => Some(0o101_011_110),
        (Mark::Double, Fold::Two, Direction::X) => Some(0o011_112_121),
        (Mark::Double, Fold::Two, Direction::Y) => Some(0o112_101_211),
        (Mark::Double, Fold::Two, Direction::Z) => Some(0o121_211_110),
        _ => None,
    }
}

fn octal_digit(turn: u32) -> u8
    ensures { result ≡ turn % 8 }
{
    (turn % 8) as u8
}

pub fn rotation_about(fold: Fold, about: Axis) -> Option<Rotation>
    ensures { result ≡ turn_of fold about }
{
    let Some(turn) = packed_turn(fold, about) else {
        return None;
    };
    Some(Rotation {
        xx: octal_digit(turn / 0o100_000_000),
        xy: octal_digit(turn / 0o10_000_000),
        xz: octal_digit(turn / 0o1_000_000),
        yx: octal_digit(turn / 0o100_000),
        yy: octal_digit(turn / 0o10_000),
        yz: octal_digit(turn / 0o1_000),
        zx: octal_digit(turn / 0o100),
        zy: octal_digit(turn / 0o10),
        zz: octal_digit(turn),
    })
}

// The entry e is held as e + 1, so −e as 2 less that.
fn opposite(digit: u8) -> u8
    ensures { result ≡ 2 - digit }
{
    2u8.saturating_sub(digit)
}

#[tactic(auto, unfolding(crate::specs::Matrices::signed))]
pub fn with_sign(negative: bool, r: Rotation) -> Rotation
    ensures { result ≡ signed negative r }
{
    if !negative {
        return r;
    }
    Rotation {
        xx: opposite(r.xx),
        xy: opposite(r.xy),
        xz: opposite(r.xz),
        yx: opposite(r.yx),
        yy: opposite(r.yy),
        yz: opposite(r.yz),
        zx: opposite(r.zx),
        zy: opposite(r.zy),
        zz: opposite(r.zz),
    }
}
