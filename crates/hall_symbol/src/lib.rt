// The text of a Hall symbol: any bytes in, the letter and the generators out, or the refusal.
// Ported from data/hall_symbol.rs of moyo 0.21.0 (`HallSymbol::new`, `parse`, `parse_lattice`, `parse_origin_shift`), and changed: twelfths for
// f64, nine slots for the list of generators, and numbered refusals with a place for `None` and panics.
#![tactic(auto)]

ghost use Rattle.std.specs.Prelude.{true, ◌≡◌, ◌<◌, ◌≤◌, length, drop};
ghost use Rattle.hall_symbol.specs.Tokens.{token_at, tokens_from};
ghost use Rattle.hall_symbol.specs.Listed.{list_of};
ghost use Rattle.hall_symbol.specs.Reader.{refused_answer, answer_of, shifted_symbol, at_end, at_shift, operations, no_previous, read_symbol};

pub mod bytes;
mod generators;
mod lattice;
pub mod refusal;
mod shift;

use bytes::is_allowed;
use centering::Centering;
use generators::Generators;
use hall_axes::{Axis, Direction, Fold, Mark, Previous};
use operation::{Operation, Translation};
use refusal::Refusal;

#[derive(Clone, Copy)]
pub enum Answer {
    Symbol,
    Refused(Refusal),
}

// The first `count` operations are the generators, the others the identity. A refused text has centering P and no generators.
#[derive(Clone, Copy)]
pub struct HallSymbol {
    pub answer: Answer,
    pub centering: Centering,
    pub count: usize,
    pub generators: [Operation; 9],
}

fn refused(refusal: Refusal) -> HallSymbol
    ensures { result ≡ refused_answer refusal }
{
    HallSymbol {
        answer: Answer::Refused(refusal),
        centering: Centering::P,
        count: 0,
        generators: [operation::product::identity(); 9],
    }
}

// The symbol, once its shift is known.
fn accepted(centering: Centering, list: Generators, v: Translation) -> HallSymbol
    requires { list.count ≤ 9 }
    ensures { result ≡ answer_of (shifted_symbol centering (list_of list) v) }
{
    let Generators { count, operations } = generators::shifted_all(list, v);
    HallSymbol {
        answer: Answer::Symbol,
        centering,
        count,
        generators: operations,
    }
}

// At the end of a text of n bytes, behind some N tokens.
#[tactic(auto, unfolding(crate::specs::Reader::at_end))]
fn at_end(n: usize, rotations: usize, centering: Centering, list: Generators) -> HallSymbol
    requires { list.count ≤ 9 }
    ensures { result ≡ answer_of (at_end n centering (list_of list) rotations) }
{
    if rotations == 0 {
        return refused(Refusal::NoRotation(n));
    }
    accepted(centering, list, Translation { x: 0, y: 0, z: 0 })
}

// At a token that starts with `(`, behind some N tokens.
#[tactic(auto, unfolding(crate::specs::Reader::at_shift))]
fn at_shift(
    text: &[u8],
    place: usize,
    rotations: usize,
    centering: Centering,
    list: Generators,
) -> HallSymbol
    requires { (place < length text.now) × (list.count ≤ 9) }
    ensures { result ≡ answer_of (at_shift centering (list_of list) rotations (token_at place (drop place text.now))) }
{
    if rotations == 0 {
        return refused(Refusal::NoRotation(place));
    }
    let Some(v) = shift::parse_origin_shift(text, place) else {
        return refused(Refusal::Shift(place));
    };
    accepted(centering, list, v)
}

// Before the first N token: none.
fn no_previous() -> Previous
    ensures { result ≡ no_previous }
{
    Previous {
        count: 0,
        fold: Fold::One,
        axis: Axis {
            mark: Mark::Unmarked,
            direction: Direction::Z,
        },
    }
}

// The tokens behind the first, which ends at a place: N tokens, each read in the light of those to its left, and the shift.
fn parse(text: &[u8], from: usize, centering: Centering, leading: Generators) -> HallSymbol
    requires { (from ≤ length text.now) × (leading.count ≤ 1) }
    ensures { result ≡ answer_of (operations (length text.now) centering (list_of leading) no_previous
        (tokens_from from true (drop from text.now))) }
{
    // Each word starts where the one before ended, so the loop has no range and no slice to go over.
    let mut at = from;
    let mut list = leading;
    let mut previous = no_previous();
    loop {
        let Some(word) = bytes::next_word(text, at) else {
            return at_end(text.len(), previous.count, centering, list);
        };
        let start = word.start;
        at = word.end;
        if text[start] == b'(' {
            return at_shift(text, start, previous.count, centering, list);
        }
        if 8 <= previous.count {
            return refused(Refusal::TooMany(start));
        }
        let parsed = hall_token::parse_operation(&text[start..at], previous);
        match parsed {
            Ok((o, fold, axis)) => {
                list.push(o);
                let count = previous.count + 1;
                previous = Previous { count, fold, axis };
            }
            Err((offset, refusal)) => {
                return refused(Refusal::Token(start + offset, refusal));
            }
        }
    }
}

impl HallSymbol {
    pub fn new(text: &[u8]) -> HallSymbol
        ensures { result ≡ answer_of (read_symbol text.now) }
    {
        if 80 < text.len() {
            return refused(Refusal::TooLong);
        }
        let allowed = bytes::scan(text, 0, is_allowed);
        if allowed < text.len() {
            return refused(Refusal::ForbiddenByte(allowed));
        }
        let Some(word) = bytes::next_word(text, 0) else {
            return refused(Refusal::NoToken);
        };
        let start = word.start;
        let end = word.end;
        let Some((inverted, centering)) = lattice::parse_lattice(&text[start..end]) else {
            return refused(Refusal::Lattice(start));
        };
        let leading = generators::leading(inverted);
        parse(text, end, centering, leading)
    }
}
