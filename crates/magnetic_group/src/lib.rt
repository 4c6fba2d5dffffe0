// The group of a magnetic Hall symbol: its order, its letter, its operations with their flags in list order, or the symbol's refusal.
// Ported from data/hall_symbol.rs of moyo 0.21.0 (`MagneticHallSymbol`), and changed: one call from the text, and numbered refusals.
#![tactic(auto)]

ghost use Rattle.std.specs.Prelude.{◌≡◌};
ghost use Rattle.magnetic_group.specs.Symbols.{magnetic_outcome};
ghost use Rattle.magnetic_group.specs.Answers.{refused_answer, made_answer, group_by, slots_of, order_by, letter_by, operation_by};

use centering::Centering;
use magnetic_symbol::MagneticSymbol;
use operation::Operation;
use packed_operation::{flag, said};
use space_group::flagged::flagged_group;
use symbol_group::refusal::Refusal;

#[derive(Clone, Copy)]
pub enum Answer {
    Group,
    Refused(Refusal),
}

// A refused symbol has centering P and no operations.
#[derive(Clone, Copy)]
pub struct MagneticGroup {
    pub answer: Answer,
    pub centering: Centering,
    pub count: usize,
}

// An operation and whether it reverses time.
#[derive(Clone, Copy)]
pub struct FlaggedOperation {
    pub operation: Operation,
    pub flag: bool,
}

fn refused(refusal: Refusal) -> MagneticGroup
    ensures { result ≡ refused_answer refusal }
{
    MagneticGroup {
        answer: Answer::Refused(refusal),
        centering: Centering::P,
        count: 0,
    }
}

fn made(c: Centering, answer: Result<usize, space_group::refusal::Refusal>) -> MagneticGroup
    ensures { result ≡ made_answer c answer }
{
    match answer {
        Err(refusal) => refused(Refusal::Group(refusal)),
        Ok(count) => MagneticGroup {
            answer: Answer::Group,
            centering: c,
            count,
        },
    }
}

// The group of a text, its list as numbers from the front of the slots. Behind the list, and where there is none, they hold the identity.
pub fn list(text: &[u8], numbers: &mut [u64; 96]) -> MagneticGroup
    ensures { (result ≡ group_by (magnetic_outcome text.now)) × (numbers.new ≡ slots_of text.now) }
{
    let read = MagneticSymbol::new(text);
    let symbol = read.symbol;
    let flags = read.flags;
    let c = symbol.centering;
    let generators = symbol.generators;
    let answer = flagged_group(c, symbol.count, generators, flags, numbers);
    match symbol.answer {
        hall_symbol::Answer::Refused(refusal) => refused(Refusal::Text(refusal)),
        hall_symbol::Answer::Symbol => made(c, answer),
    }
}

pub fn order(text: &[u8]) -> Result<usize, Refusal>
    ensures { result ≡ order_by (magnetic_outcome text.now) }
{
    let mut numbers = [0u64; 96];
    let g = list(text, &mut numbers);
    match g.answer {
        Answer::Group => Ok(g.count),
        Answer::Refused(refusal) => Err(refusal),
    }
}

pub fn letter(text: &[u8]) -> Result<Centering, Refusal>
    ensures { result ≡ letter_by (magnetic_outcome text.now) }
{
    let mut numbers = [0u64; 96];
    let g = list(text, &mut numbers);
    match g.answer {
        Answer::Group => Ok(g.centering),
        Answer::Refused(refusal) => Err(refusal),
    }
}

// Operation number i in list order, with its flag.
pub fn operation_at(text: &[u8], index: usize) -> Result<Option<FlaggedOperation>, Refusal>
    ensures { result ≡ operation_by (magnetic_outcome text.now) index }
{
    let mut numbers = [0u64; 96];
    let g = list(text, &mut numbers);
    match g.answer {
        Answer::Refused(refusal) => Err(refusal),
        Answer::Group if index < g.count => {
            let n = numbers[index];
            Ok(Some(FlaggedOperation {
                operation: said(n),
                flag: flag(n) == 1,
            }))
        }
        Answer::Group => Ok(None),
    }
}
