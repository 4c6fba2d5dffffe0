// Operation lines, as `-x,-y+1/2,z`: what is answered of them, and reading one into an operation. New in the port: the Rust has no such lines.
#![tactic(auto)]

ghost use Rattle.std.specs.Prelude.{◌≡◌, Err};
ghost use Rattle.operation_line.specs.Answers.{number_of, place_of};

pub mod reader;

use operation::Operation;

// A letter of a line.
#[derive(Clone, Copy)]
pub enum Letter {
    X,
    Y,
    Z,
}

// Why no operation is read from a line: `TooLong` is refusal 40 at place 0, `Misspelt` 41 with its place, `Determinant` 42 at place 0.
#[derive(Clone, Copy)]
pub enum ReadingRefusal {
    TooLong,
    Misspelt(usize),
    Determinant,
}

// Why no line is written: `NoOperation` is refusal 34, `Determinant` 42, `NoRoom` 20, each at place 0.
#[derive(Clone, Copy)]
pub enum WritingRefusal {
    NoOperation,
    Determinant,
    NoRoom,
}

impl ReadingRefusal {
    pub fn number(self) -> u8
        ensures { result ≡ number_of (Err self) }
    {
        match self {
            ReadingRefusal::TooLong => 40,
            ReadingRefusal::Misspelt(_) => 41,
            ReadingRefusal::Determinant => 42,
        }
    }

    pub fn place(self) -> usize
        ensures { result ≡ place_of (Err self) }
    {
        match self {
            ReadingRefusal::Misspelt(place) => place,
            _ => 0,
        }
    }
}

// The refusal's number of what is answered to a line, 0 where an operation is read.
pub fn number(answer: Result<Operation, ReadingRefusal>) -> u8
    ensures { result ≡ number_of answer }
{
    match answer {
        Ok(_) => 0,
        Err(refusal) => refusal.number(),
    }
}

// The refusal's place, 0 where an operation is read.
pub fn place(answer: Result<Operation, ReadingRefusal>) -> usize
    ensures { result ≡ place_of answer }
{
    match answer {
        Err(ReadingRefusal::Misspelt(place)) => place,
        _ => 0,
    }
}
