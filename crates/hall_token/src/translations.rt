// The run of an N token: whether it is spelt right, whether a prime stands in it, and the translation it adds up to.
// Ported from data/hall_symbol.rs of moyo 0.21.0 (`parse_translation_vector`), and changed: twelfths for f64, and refusals for digits and primes.
ghost use Rattle.std.specs.Prelude.{◌≡◌, ◌<◌};
ghost use Rattle.hall_token.specs.Runs.{every, may_stand, no_prime, no_screw};
ghost use Rattle.hall_token.specs.Translations.{screw_digit, letter_vector, moved_by};
ghost use Rattle.hall_token.specs.Sums.{letters_from};

use super::RunByte;
use super::bytes::run_byte;
use hall_axes::axes::{fold_number, plain_z};
use hall_axes::{Axis, Fold};
use operation::Translation;

const ORIGIN: Translation = Translation { x: 0, y: 0, z: 0 };

pub(crate) fn may_stand(byte: RunByte) -> bool
    ensures { result ≡ may_stand byte }
{
    !matches!(byte, RunByte::Foreign)
}

pub(crate) fn no_screw(byte: RunByte) -> bool
    ensures { result ≡ no_screw byte }
{
    !matches!(byte, RunByte::Screw(_))
}

// Whether no `'` stands in a run.
pub(crate) fn unprimed(run: &[u8]) -> bool
    ensures { result ≡ every no_prime run.now }
{
    !run.contains(&b'\'')
}

fn screw_digit(byte: RunByte) -> u8
    ensures { result ≡ screw_digit byte }
{
    match byte {
        RunByte::Screw(digit) => digit,
        _ => 0,
    }
}

fn letter_vector(byte: RunByte) -> Translation
    ensures { result ≡ letter_vector byte }
{
    match byte {
        RunByte::Letter(translation) => translation,
        _ => ORIGIN,
    }
}

// The letters of a run added to (0,0,rise), if no digit is among them.
fn letters(run: &[u8], rise: u8) -> Option<Translation>
    requires { rise < 12 }
    ensures { result ≡ letters_from run.now 0 0 rise }
{
    let mut x: u8 = 0;
    let mut y: u8 = 0;
    let mut z = rise;
    for byte in run {
        let byte = run_byte(*byte);
        if !no_screw(byte) {
            return None;
        }
        let vector = letter_vector(byte);
        x = (x + vector.x) % 12;
        y = (y + vector.y) % 12;
        z = (z + vector.z) % 12;
    }
    Some(Translation { x, y, z })
}

// The translation of a run, unless a digit stands where none may.
pub(crate) fn translation_of(fold: Fold, axis: Axis, run: &[u8]) -> Option<Translation>
    ensures { result ≡ moved_by fold axis run.now }
{
    if run.len() == 0 {
        return Some(ORIGIN);
    }
    let first = run_byte(run[0]);
    if no_screw(first) {
        return letters(run, 0);
    }
    let digit = screw_digit(first);
    let turn = fold_number(fold);
    if !plain_z(axis.mark, axis.direction) || turn <= digit {
        return None;
    }
    letters(&run[1..], 12 * digit / turn)
}
