// The group record: the byte form of a group of operations, what it says and what is answered to it. New in the port: the
// Rust has no such form.
#![tactic(auto)]

pub mod items;
pub mod sign;

ghost use Rattle.std.specs.Prelude.{◌≡◌};
ghost use Rattle.group_record.specs.BothEditions.{edition_of, other_edition};
ghost use Rattle.group_record.specs.Reading.{refusal_number};
ghost use Rattle.group_record.specs.Signs.{letter_byte};

use centering::Centering;
use operation::Operation;

// The editions that are read and written: five bytes an operation, and four.
#[derive(Clone, Copy)]
pub enum Edition {
    First,
    Third,
}

impl Edition {
    // The number that its records state.
    pub fn number(self) -> u8
        ensures { result ≡ (edition_of self).number }
    {
        match self {
            Edition::First => 1,
            Edition::Third => 3,
        }
    }

    // The edition that a record is moved to.
    pub fn other(self) -> Edition
        ensures { result ≡ other_edition self }
    {
        match self {
            Edition::First => Edition::Third,
            Edition::Third => Edition::First,
        }
    }
}

// Why a record is not read.
#[derive(Clone, Copy)]
pub enum Refusal {
    Short,
    WrongEdition,
    WrongLetter,
    WrongLength,
    WrongItem,
    NotAllowed,
}

impl Refusal {
    // The number of R8; the place is 0.
    pub fn number(self) -> u8
        ensures { result ≡ refusal_number self }
    {
        match self {
            Refusal::Short => 30,
            Refusal::WrongEdition => 31,
            Refusal::WrongLetter => 32,
            Refusal::WrongLength => 33,
            Refusal::WrongItem => 34,
            Refusal::NotAllowed => 35,
        }
    }
}

#[derive(Clone, Copy)]
pub enum Reading {
    Accepted,
    Refused(Refusal),
}

// What a record holds: count operations, ascending by code; the rest of the 48 is the identity.
// `layer` says that its letter is small: p where the lattice is that of P, c where it is that of C.
// A refused record leaves edition 1, P, no operation, and the identity 48 times.
#[derive(Clone, Copy)]
pub struct RecordGroup {
    pub answer: Reading,
    pub edition: Edition,
    pub layer: bool,
    pub centering: Centering,
    pub count: usize,
    pub operations: [Operation; 48],
}

// The byte of a record's letter. 32 lies between a capital and its small letter.
pub fn letter_byte(layer: bool, c: Centering) -> u8
    ensures { result ≡ letter_byte layer c }
{
    let capital = c.byte();
    if layer {
        return capital + 32;
    }
    capital
}
