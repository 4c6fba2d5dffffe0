// Writing an operation, given by its five bytes, as a line: the letters of each row in their order, no leading plus, then the fraction in lowest terms.
#![tactic(auto)]

ghost use Rattle.std.specs.Prelude.{◌≡◌, ◌+◌, ◌≤◌, ◌<◌, length};
ghost use Rattle.five_bytes.specs.FiveBytes.{Sayable};
ghost use Rattle.placed_text.specs.Placing.{Put};
ghost use Rattle.operation_line.specs.Spelling.{numeral};
ghost use Rattle.operation_line.specs.Writing.{sign_bytes, plain_bytes, row_terms, written_line, fitted_answer, fitted, writable, write_of, buffer_of};
ghost use Rattle.operation_line.specs.Building.{letter_bytes, fraction_bytes};

use five_bytes::operation_in;
use operation::Operation;
use operation::rotation_type::{Handedness, identify_handedness};
use operation_line::WritingRefusal;

// k twelfths are NUMERATORS[k] over DENOMINATORS[k] in lowest terms.
const NUMERATORS: [u8; 12] = [0, 1, 1, 1, 1, 5, 1, 7, 2, 3, 5, 11];

const DENOMINATORS: [u8; 12] = [1, 12, 6, 4, 3, 12, 2, 12, 3, 4, 6, 12];

// The line at the start of out. Whatever is refused, out stays as it was.
pub fn write_line(bytes: &[u8], out: &mut [u8]) -> Result<usize, WritingRefusal>
    ensures { (result ≡ write_of bytes.now (length out.old)) × (out.new ≡ buffer_of bytes.now out.old) }
{
    let Some(f) = operation_in(bytes) else {
        return Err(WritingRefusal::NoOperation);
    };
    if !is_writable(f) {
        return Err(WritingRefusal::Determinant);
    }
    write_fitting(f, out)
}

fn is_writable(f: Operation) -> bool
    ensures { result ≡ writable f }
{
    match identify_handedness(f.rotation) {
        Handedness::Proper | Handedness::Improper => true,
        Handedness::Neither => false,
    }
}

// The line is made aside, since its length is known only then. Each part says where the next goes: a length in a struct beside the bytes would stand in memory,
// and each byte would wait for the one before.
fn write_fitting(f: Operation, out: &mut [u8]) -> Result<usize, WritingRefusal>
    requires { Sayable f }
    ensures { (result ≡ fitted_answer (written_line f) (length out.old)) × (out.new ≡ fitted (written_line f) out.old) }
{
    let mut line = [0u8; 64];
    let size = put_line(&mut line, f);
    if out.len() < size {
        return Err(WritingRefusal::NoRoom);
    }
    out[..size].copy_from_slice(&line[..size]);
    Ok(size)
}

// Three parts with commas between them, at the start of out.
fn put_line(out: &mut [u8], f: Operation) -> usize
    requires { Sayable f × (38 ≤ length out.old) }
    ensures { Put out.old 0 (written_line f) out.new result }
{
    let r = f.rotation;
    let t = f.translation;
    let x = put_part(out, 0, r.xx, r.xy, r.xz, t.x);
    out[x] = b',';
    let y = put_part(out, x + 1, r.yx, r.yy, r.yz, t.y);
    out[y] = b',';
    put_part(out, y + 1, r.zx, r.zy, r.zz, t.z)
}

// The letters of a row in their order, then its twelfths.
fn put_part(out: &mut [u8], at: usize, x: u8, y: u8, z: u8, k: u8) -> usize
    requires { (k < 12) × (at + 12 ≤ length out.old) }
    ensures { Put out.old at (plain_bytes (row_terms x y z k)) out.new result }
{
    let second = put_letter(out, true, at, x, b'x');
    let third = put_letter(out, second == at, second, y, b'y');
    let last = put_letter(out, third == at, third, z, b'z');
    put_fraction(out, last == at, last, k)
}

// An entry's letter with its sign, or nothing for the entry 0, whose digit is 1.
fn put_letter(out: &mut [u8], first: bool, at: usize, digit: u8, letter: u8) -> usize
    requires { at + 2 ≤ length out.old }
    ensures { Put out.old at (letter_bytes first letter digit) out.new result }
{
    if digit == 1 {
        return at;
    }
    let next = put_sign(out, first, at, digit == 0);
    out[next] = letter;
    next + 1
}

fn put_fraction(out: &mut [u8], first: bool, at: usize, k: u8) -> usize
    requires { (k < 12) × (at + 6 ≤ length out.old) }
    ensures { Put out.old at (fraction_bytes first k) out.new result }
{
    if k == 0 {
        return at;
    }
    let i = k as usize;
    let next = put_sign(out, first, at, false);
    let bar = put_numeral(out, next, NUMERATORS[i]);
    out[bar] = b'/';
    put_numeral(out, bar + 1, DENOMINATORS[i])
}

// A part's first plus is not written.
fn put_sign(out: &mut [u8], first: bool, at: usize, negative: bool) -> usize
    requires { at + 1 ≤ length out.old }
    ensures { Put out.old at (sign_bytes first negative) out.new result }
{
    if negative {
        out[at] = b'-';
        return at + 1;
    }
    if first {
        return at;
    }
    out[at] = b'+';
    at + 1
}

fn put_numeral(out: &mut [u8], at: usize, n: u8) -> usize
    requires { (n < 100) × (at + 2 ≤ length out.old) }
    ensures { Put out.old at (numeral n) out.new result }
{
    if n < 10 {
        out[at] = b'0' + n;
        return at + 1;
    }
    out[at] = b'0' + n / 10;
    out[at + 1] = b'0' + n % 10;
    at + 2
}
