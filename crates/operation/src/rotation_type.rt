// The ten types of a crystallographic rotation, told from trace and determinant, and the handedness, told from the determinant.
// Ported from identify/rotation_type.rs of moyo 0.21.0, and changed: nine numbers of any value, no floats, and refusal 15 for `unreachable!`.

ghost use Rattle.std.specs.Prelude.{◌≡◌, ◌≤◌, pos, ◌-ℤ◌};
ghost use Rattle.laws.specs.Matrix.{trace, determinant};
ghost use Rattle.operation.specs.Meaning.{digit_of, matrix_of, Digits, all_inside};
ghost use Rattle.operation.specs.RotationType.{type_answer, identified, type_of, handedness_by, handedness_of, rows};
ghost use Rattle.operation.specs.DigitDeterminant.{are_digits, digit_of_product, digit_of_triple, trace_part, determinant_part};

use crate::Rotation;

#[derive(Clone, Copy)]
pub enum RotationType {
    Rotation1,
    Rotation2,
    Rotation3,
    Rotation4,
    Rotation6,
    RotoInversion1,
    RotoInversion2,
    RotoInversion3,
    RotoInversion4,
    RotoInversion6,
}

// `Neither` is a determinant other than 1 and −1, or an entry outside −1..1.
#[derive(Clone, Copy)]
pub enum Handedness {
    Proper,
    Improper,
    Neither,
}

// The type of the matrix with these entries, by rows.
pub fn identify_rotation_type(
    xx: i32,
    xy: i32,
    xz: i32,
    yx: i32,
    yy: i32,
    yz: i32,
    zx: i32,
    zy: i32,
    zz: i32,
) -> Option<RotationType>
    ensures { type_answer result ≡ identified (rows xx xy xz yx yy yz zx zy zz) }
{
    type_of_digits(Rotation {
        xx: digit(xx),
        xy: digit(xy),
        xz: digit(xz),
        yx: digit(yx),
        yy: digit(yy),
        yz: digit(yz),
        zx: digit(zx),
        zy: digit(zy),
        zz: digit(zz),
    })
}

// Whether a rotation keeps handedness or reverses it.
pub fn identify_handedness(r: Rotation) -> Handedness
    ensures { result ≡ handedness_of (matrix_of r) }
{
    if !in_range(r) {
        return Handedness::Neither;
    }
    handedness_of_raised(raised_determinant(r))
}

// An entry's digit, or 3 for a number outside −1..1: `in_range` refuses it as any number that is no digit, so nine refusals here would be no plainer.
fn digit(entry: i32) -> u8
    ensures { result ≡ digit_of entry }
{
    match entry {
        -1 => 0,
        0 => 1,
        1 => 2,
        _ => 3,
    }
}

fn type_of_digits(r: Rotation) -> Option<RotationType>
    ensures { type_answer result ≡ identified (matrix_of r) }
{
    if !in_range(r) {
        return None;
    }
    type_of_folded(folded(r))
}

// A key as `folded` makes it: 65 is trace 3 and determinant 1, 3 is trace −3 and determinant −1.
fn type_of_folded(key: u8) -> Option<RotationType>
    ensures { type_answer result ≡ type_of (trace_part key) (determinant_part key) }
{
    match key {
        65 => Some(RotationType::Rotation1),
        25 => Some(RotationType::Rotation2),
        35 => Some(RotationType::Rotation3),
        45 => Some(RotationType::Rotation4),
        55 => Some(RotationType::Rotation6),
        3 => Some(RotationType::RotoInversion1),
        43 => Some(RotationType::RotoInversion2),
        33 => Some(RotationType::RotoInversion3),
        23 => Some(RotationType::RotoInversion4),
        13 => Some(RotationType::RotoInversion6),
        _ => None,
    }
}

// Trace and determinant in one number: its tens are the trace plus 3, its ones the determinant plus 4.
fn folded(r: Rotation) -> u8
    requires { Digits r }
    ensures { (trace (matrix_of r) ≡ trace_part result) × (determinant (matrix_of r) ≡ determinant_part result) }
{
    let raised_trace = r.xx + r.yy + r.zz;
    raised_trace * 10 + raised_determinant(r)
}

// Whether all entries are in −1..1.
fn in_range(r: Rotation) -> bool
    ensures { result ≡ all_inside (matrix_of r) }
{
    are_digits(r.xx, r.xy, r.xz) && are_digits(r.yx, r.yy, r.yz) && are_digits(r.zx, r.zy, r.zz)
}

fn are_digits(a: u8, b: u8, c: u8) -> bool
    ensures { result ≡ are_digits a b c }
{
    a <= 2 && b <= 2 && c <= 2
}

// The determinant plus 4: determinants of such matrices run from −4 to 4.
fn raised_determinant(r: Rotation) -> u8
    requires { Digits r }
    ensures { (determinant (matrix_of r) ≡ pos result -ℤ pos 4) × (result ≤ 8) }
{
    let added = triple(r.xx, r.yy, r.zz) + triple(r.xy, r.yz, r.zx) + triple(r.xz, r.yx, r.zy);
    let taken = triple(r.xx, r.yz, r.zy) + triple(r.xy, r.yx, r.zz) + triple(r.xz, r.yy, r.zx);
    added + 4 - taken
}

// 5 is determinant 1, 3 is determinant −1.
fn handedness_of_raised(raised: u8) -> Handedness
    ensures { result ≡ handedness_by (pos raised -ℤ pos 4) }
{
    match raised {
        5 => Handedness::Proper,
        3 => Handedness::Improper,
        _ => Handedness::Neither,
    }
}

// The digit of the product of three entries, and of two.
fn triple(a: u8, b: u8, c: u8) -> u8
    requires { (a ≤ 2) × (b ≤ 2) × (c ≤ 2) }
    ensures { (result ≡ digit_of_triple a b c) × (result ≤ 2) }
{
    times(a, times(b, c))
}

fn times(a: u8, b: u8) -> u8
    requires { (a ≤ 2) × (b ≤ 2) }
    ensures { (result ≡ digit_of_product a b) × (result ≤ 2) }
{
    a * b + 2 - a - b
}
