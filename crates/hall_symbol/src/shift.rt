// The shift of the origin at a symbol's end.
// Ported from data/hall_symbol.rs of moyo 0.21.0, and changed: whole twelfths for f64, and refusals for panics.
ghost use Rattle.std.specs.Prelude.{◌≡◌, ◌<◌, ◌≤◌, length, drop};
ghost use Rattle.hall_symbol.specs.Shift.{one_digit, two_digits, digits_of, below_zero, opposed, shift_number, number_from, numbers_of, shift_of};

use super::bytes::{is_whitespace, next_word, scan};
use operation::Translation;

// A number of twelfths that a shift may hold, modulo 12.
#[tactic(auto, unfolding(crate::specs::Shift::one_digit))]
fn one_digit(byte: u8) -> Option<u8>
    ensures { result ≡ one_digit byte }
{
    match byte {
        b'0'..=b'9' => Some(byte - b'0'),
        _ => None,
    }
}

#[tactic(auto, unfolding(crate::specs::Shift::two_digits))]
fn two_digits(tens: u8, ones: u8) -> Option<u8>
    ensures { result ≡ two_digits tens ones }
{
    match (tens, ones) {
        (b'1', b'0'..=b'1') => Some(ones - 38),
        _ => None,
    }
}

#[tactic(auto, unfolding(crate::specs::Shift::digits_of))]
fn parse_digits(word: &[u8]) -> Option<u8>
    ensures { result ≡ digits_of word.now }
{
    match word {
        [ones] => one_digit(*ones),
        [tens, ones] => two_digits(*tens, *ones),
        _ => None,
    }
}

// The whole cell less n twelfths, for the numbers that may follow a `-`.
#[tactic(auto, unfolding(crate::specs::Shift::below_zero))]
fn below_zero(n: u8) -> Option<u8>
    ensures { result ≡ below_zero n }
{
    match n {
        1..=11 => Some(12 - n),
        _ => None,
    }
}

// The number whose digits follow a `-`.
fn parse_below(digits: &[u8]) -> Option<u8>
    ensures { result ≡ opposed (digits_of digits.now) }
{
    below_zero(parse_digits(digits)?)
}

#[tactic(auto, unfolding(crate::specs::Shift::shift_number))]
fn parse_number(word: &[u8]) -> Option<u8>
    ensures { result ≡ shift_number word.now }
{
    match word {
        [b'-', digits @ ..] => parse_below(digits),
        _ => parse_digits(word),
    }
}

// The next number from a place on, and the place behind it.
fn next_number(inside: &[u8], at: usize) -> Option<(u8, usize)>
    requires { at ≤ length inside.now }
    ensures { result ≡ number_from at inside.now }
{
    let word = next_word(inside, at)?;
    let number = parse_number(&inside[word.start..word.end])?;
    Some((number, word.end))
}

// What stands between the brackets.
fn parse_numbers(inside: &[u8]) -> Option<Translation>
    ensures { result ≡ numbers_of inside.now }
{
    let (x, behind_x) = next_number(inside, 0)?;
    let (y, behind_y) = next_number(inside, behind_x)?;
    let (z, behind_z) = next_number(inside, behind_y)?;
    if scan(inside, behind_z, is_whitespace) < inside.len() {
        return None;
    }
    Some(Translation { x, y, z })
}

// The shift that starts at the `(` at a place, and ends the text.
pub(crate) fn parse_origin_shift(text: &[u8], bracket: usize) -> Option<Translation>
    requires { bracket < length text.now }
    ensures { result ≡ shift_of (drop bracket text.now) }
{
    let first = bracket + 1;
    let close = scan(text, first, |byte| byte != b')');
    if text.len() <= close {
        return None;
    }
    if scan(text, close + 1, is_whitespace) < text.len() {
        return None;
    }
    parse_numbers(&text[first..close])
}
