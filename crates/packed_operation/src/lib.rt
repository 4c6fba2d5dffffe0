// An operation as one number of 64 bits, and the product of two numbers. A row of the rotation and its coordinate stand in a lane of 21 bits: three digits of
// two bits, five bits apart, then four bits of twelfths; the highest bit is a flag. Fields are narrow, so no sum leaves its lane, and nothing is required of
// a number.
#![tactic(auto)]

ghost use Rattle.std.specs.Prelude.{◌≡◌, ◌+◌, ◌*◌, ◌/◌, ◌%◌, ◌≤◌};
ghost use Rattle.operation.specs.Lanes.{lanes_of, rows_times};
ghost use Rattle.packed_operation.specs.Number.{digit_lanes, twelfth_lanes, row_digits, row_of, key_of, rotation_said, said_by, flag_of, packed_of, narrowed, numbered};
ghost use Rattle.operation.specs.Product.{product_of};
ghost use Rattle.packed_operation.specs.Rows.{raised_rows, eights_of};
ghost use Rattle.packed_operation.specs.Times.{moved_lanes};

use operation::lanes::{EACH, SECOND, THIRD, bytes, lanes};
use operation::{Operation, Rotation, Translation};

// 1 in each of the nine fields of digits: 1 + 32 + 1024 in each lane.
const ONES: u64 = 4648737378927649;

const FLAG: u64 = 1 << 63;

// The digits at the start of each lane. `twelfths` and `operation::lanes::bytes` take more bits of each in the same way: a width as a parameter would have to
// be asked to be small, so one function of three widths is no plainer.
fn digits(n: u64) -> u64
    ensures { (result ≡ digit_lanes n) × (result ≤ 13194145824771) }
{
    n % 4 + n / SECOND % 4 * SECOND + n / THIRD % 4 * THIRD
}

fn twelfths(n: u64) -> u64
    ensures { (result ≡ twelfth_lanes n) × (result ≤ 65970729123855) }
{
    n % 16 + n / SECOND % 16 * SECOND + n / THIRD % 16 * THIRD
}

// The three digits of the first lane, in their fields.
fn row(n: u64) -> u64
    ensures { (result ≡ row_digits n) × (result ≤ 3171) }
{
    n % 4 + n / 32 % 4 * 32 + n / 1024 % 4 * 1024
}

// The rotation of a number: two numbers say the same rotation exactly if their keys are equal.
pub fn key(n: u64) -> u64
    ensures { (result ≡ key_of n) × (result ≤ 13946212136782947) }
{
    row(n) + row(n / SECOND) * SECOND + row(n / THIRD) * THIRD
}

pub fn flag(n: u64) -> u64
    ensures { (result ≡ flag_of n) × (result ≤ 1) }
{
    n / FLAG % 2
}

fn packed_row(a: u8, b: u8, c: u8) -> u64
    ensures { (result ≡ row_of (a % 4) (b % 4) (c % 4)) × (result ≤ 3171) }
{
    u64::from(a % 4) + u64::from(b % 4) * 32 + u64::from(c % 4) * 1024
}

fn packed_twelfths(t: Translation) -> u64
    ensures { (result ≡ lanes_of (t.x % 16) (t.y % 16) (t.z % 16)) × (result ≤ 65970729123855) }
{
    lanes(t.x % 16, t.y % 16, t.z % 16)
}

// The number of an operation, each digit cut down to two bits and each coordinate to four, with the lowest bit of a number as its flag.
pub fn number(o: Operation, flag: u64) -> u64
    ensures { result ≡ packed_of (narrowed o) (flag % 2) }
{
    let r = o.rotation;
    let t = o.translation;
    packed_row(r.xx, r.xy, r.xz)
        + packed_row(r.yx, r.yy, r.yz) * SECOND
        + packed_row(r.zx, r.zy, r.zz) * THIRD
        + packed_twelfths(t) * 32768
        + flag % 2 * FLAG
}

// The operation that a number says, whatever its bits are.
pub fn said(n: u64) -> Operation
    ensures { result ≡ said_by n }
{
    Operation {
        rotation: Rotation {
            xx: (n % 4) as u8,
            xy: (n / 32 % 4) as u8,
            xz: (n / 1024 % 4) as u8,
            yx: (n / SECOND % 4) as u8,
            yy: (n / 32 / SECOND % 4) as u8,
            yz: (n / 1024 / SECOND % 4) as u8,
            zx: (n / THIRD % 4) as u8,
            zy: (n / 32 / THIRD % 4) as u8,
            zz: (n / 1024 / THIRD % 4) as u8,
        },
        translation: Translation {
            x: (n / 32768 % 16) as u8,
            y: (n / 32768 / SECOND % 16) as u8,
            z: (n / 32768 / THIRD % 16) as u8,
        },
    }
}

// A column of digits, one in each lane, times a number.
fn scaled(n: u64, a: u64) -> u64
    requires { a ≤ 3171 }
    ensures { (result ≡ lanes_of (n % 4 * a) (n / 2097152 % 4 * a) (n / 4398046511104 % 4 * a)) × (result ≤ 41838636410348841) }
{
    digits(n) * a
}

// The three rows of digits times a column of numbers.
fn rows_times(f: u64, a: u64, b: u64, c: u64) -> u64
    requires { (a ≤ 3171) × (b ≤ 3171) × (c ≤ 3171) }
    ensures { (result ≡ rows_times (rotation_said f) a b c) × (result ≤ 125515909231046523) }
{
    scaled(f, a) + scaled(f / 32, b) + scaled(f / 1024, c)
}

fn row_sums(f: u64) -> u64
    ensures { (result ≡ rows_times (rotation_said f) 1 1 1) × (result ≤ 39582437474313) }
{
    digits(f) + digits(f / 32) + digits(f / 1024)
}

// The nine sums of a product of rotations, each in its field: Σ(a−1)(x−1) + 9 is Σax + 12 less Σ(a+x). A row of the right factor is three digits in one number,
// so three multiplications make them all.
fn rotations(f: u64, g: u64) -> u64
    ensures { (result ≡ raised_rows (rotation_said f) (rotation_said g)) × (result ≤ 139462121367829470) }
{
    let a = row(g);
    let b = row(g / SECOND);
    let c = row(g / THIRD);
    let base = 12 * ONES - row_sums(f) * 1057;
    rows_times(f, a, b, c) + base - (a + b + c) * EACH
}

// Each field's largest multiple of 4.
fn eights(n: u64) -> u64
    ensures { result ≡ eights_of n }
{
    n - key(n)
}

// Ru + t modulo 12, in lanes.
fn moved(f: u64, g: u64) -> u64
    ensures { (result ≡ moved_lanes (said_by f) (said_by g)) × (result ≤ 48378534690827) }
{
    let u = g / 32768 % 16;
    let v = g / 32768 / SECOND % 16;
    let w = g / 32768 / THIRD % 16;
    let sum = rows_times(f, u, v, w) + twelfths(f / 32768) + (u + v + w) * (11 * EACH);
    sum - bytes(sum * 683 / 8192) * 12
}

// The number of the product of what two numbers say; its flag is the exclusive or of theirs. A field is 8, 9 or 10 where it and the next number both have the
// multiple 8.
pub fn product(f: u64, g: u64) -> Option<u64>
    ensures { result ≡ numbered (product_of (said_by f) (said_by g)) ((flag_of f + flag_of g) % 2) }
{
    let raised = rotations(f, g);
    if eights(raised) != 8 * ONES || eights(raised + ONES) != 8 * ONES {
        return None;
    }
    Some(key(raised) + moved(f, g) * 32768 + (flag(f) + flag(g)) % 2 * FLAG)
}
