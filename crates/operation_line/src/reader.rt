// One line read byte by byte into a rotation's code and a translation's number, and these into an operation.
ghost use Rattle.std.specs.Prelude.{◌≡◌, ◌<◌};
ghost use Rattle.operation_line.specs.Reading.{symbol_of, read_line};
ghost use Rattle.operation_line.specs.Numbers.{Within, weight_of, column_of, ending_numbers, told_numbers, letter_numbers, fraction_numbers, numerator_numbers, begun_numbers, start_numbers, full_numbers, next_numbers, term_numbers, second_numbers, after_numbers, unit_found, over_numbers, slash_numbers, twelve_numbers, one_numbers, step_numbers, decoded_line, ended_numbers, whole_numbers};

use super::Letter;
use crate::ReadingRefusal;
use operation::code::rotation_of_code;
use operation::rotation_type::{Handedness, identify_handedness};
use operation::{Operation, Translation};

// What a byte of a line says.
#[derive(Clone, Copy)]
pub enum Symbol {
    Space,
    Sign(bool),
    Named(Letter),
    Digit(u8),
    Slash,
    Comma,
    Foreign,
}

// What stands at the end of the bytes read: the start of a part; a sign (true for minus) whose term is owed; a term; or a fraction's numerator,
// its `/`, or the 1 of its 12, each with the term's sign and the numerator.
#[derive(Clone, Copy)]
pub enum Mode {
    Start,
    Owed(bool),
    Told,
    Numerator(bool, u8),
    Behind(bool, u8),
    Twelfth(bool, u8),
}

// The part that is read, 0 to 2; the code of the rows so far, a letter not yet read being an entry 0; and their twelfths, in base 12.
#[derive(Clone, Copy)]
pub struct State {
    pub part: u8,
    pub mode: Mode,
    pub code: u32,
    pub rank: u32,
}

fn symbol_of(byte: u8) -> Symbol
    ensures { result ≡ symbol_of byte }
{
    match byte {
        b' ' => Symbol::Space,
        b'+' => Symbol::Sign(false),
        b'-' => Symbol::Sign(true),
        b',' => Symbol::Comma,
        b'/' => Symbol::Slash,
        b'x' => Symbol::Named(Letter::X),
        b'y' => Symbol::Named(Letter::Y),
        b'z' => Symbol::Named(Letter::Z),
        b'0'..=b'9' => Symbol::Digit(byte - b'0'),
        _ => Symbol::Foreign,
    }
}

fn weight(letter: Letter) -> u32
    ensures { result ≡ weight_of letter }
{
    match letter {
        Letter::X => 9,
        Letter::Y => 3,
        Letter::Z => 1,
    }
}

// A letter's digit in the last row.
fn column(code: u32, letter: Letter) -> u32
    ensures { result ≡ column_of code letter }
{
    match letter {
        Letter::X => code / 9 % 3,
        Letter::Y => code / 3 % 3,
        Letter::Z => code % 3,
    }
}

fn ending(state: State, mode: Mode) -> Option<State>
    ensures { result ≡ ending_numbers state mode }
{
    Some(State { mode, ..state })
}

fn told(state: State, code: u32, rank: u32) -> Option<State>
    ensures { result ≡ told_numbers state code rank }
{
    Some(State {
        mode: Mode::Told,
        code,
        rank,
        ..state
    })
}

// A letter that the part does not have yet: its digit is still that of 0.
fn with_letter(state: State, negative: bool, letter: Letter) -> Option<State>
    requires { Within state }
    ensures { result ≡ letter_numbers state negative letter }
{
    let code = state.code;
    if column(code, letter) != 1 {
        return None;
    }
    let one = weight(letter);
    if negative {
        return told(state, code - one, state.rank);
    }
    told(state, code + one, state.rank)
}

fn with_twelfths(state: State, negative: bool, twelfths: u8) -> Option<State>
    requires { Within state × (twelfths < 12) }
    ensures { result ≡ fraction_numbers state negative twelfths }
{
    let size = twelfths as u32;
    if negative {
        return told(state, state.code, state.rank + (12 - size));
    }
    told(state, state.code, state.rank + size)
}

// The first digit of a numerator, where the part has no fraction yet.
fn with_numerator(state: State, negative: bool, numerator: u8) -> Option<State>
    ensures { result ≡ numerator_numbers state negative numerator }
{
    if numerator == 0 {
        return None;
    }
    if state.rank % 12 != 0 {
        return None;
    }
    ending(state, Mode::Numerator(negative, numerator))
}

// Where a term begins, with its sign known.
fn begun(state: State, negative: bool, symbol: Symbol) -> Option<State>
    requires { Within state }
    ensures { result ≡ begun_numbers state negative symbol }
{
    match symbol {
        Symbol::Space => Some(state),
        Symbol::Named(letter) => with_letter(state, negative, letter),
        Symbol::Digit(digit) => with_numerator(state, negative, digit),
        _ => None,
    }
}

// At the start of a part: a sign, or the first term, whose plus is missing.
fn at_start(state: State, symbol: Symbol) -> Option<State>
    requires { Within state }
    ensures { result ≡ start_numbers state symbol }
{
    match symbol {
        Symbol::Sign(negative) => ending(state, Mode::Owed(negative)),
        _ => begun(state, false, symbol),
    }
}

// Whether the part has all three letters and a fraction.
fn is_full(code: u32, rank: u32) -> bool
    ensures { result ≡ full_numbers code rank }
{
    column(code, Letter::X) != 1
        && column(code, Letter::Y) != 1
        && column(code, Letter::Z) != 1
        && rank % 12 != 0
}

fn next_part(state: State) -> Option<State>
    requires { Within state }
    ensures { result ≡ next_numbers state }
{
    if 2 <= state.part {
        return None;
    }
    Some(State {
        part: state.part + 1,
        mode: Mode::Start,
        code: state.code * 27 + 13,
        rank: state.rank * 12,
    })
}

fn with_sign(state: State, negative: bool) -> Option<State>
    ensures { result ≡ term_numbers state (Symbol.Sign negative) }
{
    if is_full(state.code, state.rank) {
        return None;
    }
    ending(state, Mode::Owed(negative))
}

fn after_term(state: State, symbol: Symbol) -> Option<State>
    requires { Within state }
    ensures { result ≡ term_numbers state symbol }
{
    match symbol {
        Symbol::Space => Some(state),
        Symbol::Sign(negative) => with_sign(state, negative),
        Symbol::Comma => next_part(state),
        _ => None,
    }
}

fn second_digit(state: State, negative: bool, numerator: u8, digit: u8) -> Option<State>
    ensures { result ≡ second_numbers state negative numerator digit }
{
    if numerator != 1 {
        return None;
    }
    if 2 <= digit {
        return None;
    }
    ending(state, Mode::Numerator(negative, 10 + digit))
}

fn after_numerator(state: State, negative: bool, numerator: u8, symbol: Symbol) -> Option<State>
    ensures { result ≡ after_numbers state negative numerator symbol }
{
    match symbol {
        Symbol::Digit(digit) => second_digit(state, negative, numerator, digit),
        Symbol::Slash => ending(state, Mode::Behind(negative, numerator)),
        _ => None,
    }
}

// The twelfths in one over a digit, where the digit is a denominator.
fn unit_of(digit: u8) -> Option<u8>
    ensures { result ≡ unit_found digit }
{
    match digit {
        2 => Some(6),
        3 => Some(4),
        4 => Some(3),
        6 => Some(2),
        _ => None,
    }
}

fn over_digit(state: State, negative: bool, numerator: u8, digit: u8) -> Option<State>
    requires { Within state }
    ensures { result ≡ over_numbers state negative numerator digit }
{
    if digit == 1 {
        return ending(state, Mode::Twelfth(negative, numerator));
    }
    let unit = unit_of(digit)?;
    if digit <= numerator {
        return None;
    }
    with_twelfths(state, negative, numerator * unit)
}

fn after_slash(state: State, negative: bool, numerator: u8, symbol: Symbol) -> Option<State>
    requires { Within state }
    ensures { result ≡ slash_numbers state negative numerator symbol }
{
    match symbol {
        Symbol::Digit(digit) => over_digit(state, negative, numerator, digit),
        _ => None,
    }
}

fn over_twelve(state: State, negative: bool, numerator: u8, digit: u8) -> Option<State>
    requires { Within state }
    ensures { result ≡ twelve_numbers state negative numerator digit }
{
    if digit != 2 {
        return None;
    }
    if 12 <= numerator {
        return None;
    }
    with_twelfths(state, negative, numerator)
}

fn after_one(state: State, negative: bool, numerator: u8, symbol: Symbol) -> Option<State>
    requires { Within state }
    ensures { result ≡ one_numbers state negative numerator symbol }
{
    match symbol {
        Symbol::Digit(digit) => over_twelve(state, negative, numerator, digit),
        _ => None,
    }
}

fn step(state: State, byte: u8) -> Option<State>
    requires { Within state }
    ensures { result ≡ step_numbers state byte }
{
    let symbol = symbol_of(byte);
    match state.mode {
        Mode::Start => at_start(state, symbol),
        Mode::Owed(negative) => begun(state, negative, symbol),
        Mode::Told => after_term(state, symbol),
        Mode::Numerator(negative, numerator) => after_numerator(state, negative, numerator, symbol),
        Mode::Behind(negative, numerator) => after_slash(state, negative, numerator, symbol),
        Mode::Twelfth(negative, numerator) => after_one(state, negative, numerator, symbol),
    }
}

// The operation of a code and a number of three twelfths, where its determinant is 1 or −1.
fn operation_of(code: u32, rank: u32) -> Result<Operation, ReadingRefusal>
    ensures { result ≡ decoded_line code rank }
{
    let Some(rotation) = rotation_of_code(code) else {
        return Err(ReadingRefusal::Determinant);
    };
    let translation = Translation {
        x: (rank / 144 % 12) as u8,
        y: (rank / 12 % 12) as u8,
        z: (rank % 12) as u8,
    };
    match identify_handedness(rotation) {
        Handedness::Proper | Handedness::Improper => Ok(Operation {
            rotation,
            translation,
        }),
        Handedness::Neither => Err(ReadingRefusal::Determinant),
    }
}

// A line ends behind a term of its third part; otherwise it breaks off.
fn at_end(state: State, size: usize) -> Result<Operation, ReadingRefusal>
    ensures { result ≡ ended_numbers size state }
{
    match state.mode {
        Mode::Told => whole(state, size),
        _ => Err(ReadingRefusal::Misspelt(size)),
    }
}

fn whole(state: State, size: usize) -> Result<Operation, ReadingRefusal>
    ensures { result ≡ whole_numbers size state }
{
    if state.part != 2 {
        return Err(ReadingRefusal::Misspelt(size));
    }
    operation_of(state.code, state.rank)
}

// The operation of a line, or why there is none.
pub fn read_line(line: &[u8]) -> Result<Operation, ReadingRefusal>
    ensures { result ≡ read_line line.now }
{
    if 64 < line.len() {
        return Err(ReadingRefusal::TooLong);
    }
    let mut state = State {
        part: 0,
        mode: Mode::Start,
        code: 13,
        rank: 0,
    };
    for (i, &byte) in line.iter().enumerate() {
        let Some(next) = step(state, byte) else {
            return Err(ReadingRefusal::Misspelt(i));
        };
        state = next;
    }
    at_end(state, line.len())
}
