// The group of a Hall symbol: its order, its operations in list order, their translations as doubles, and the whole by value, or the symbol's refusal.
// Ported from data/hall_symbol.rs of moyo 0.21.0 (`HallSymbol::new` and then `traverse`), and changed: one call from the text, and numbered refusals.
#![tactic(auto)]

ghost use Rattle.std.specs.Prelude.{◌≡◌};
ghost use Rattle.symbol_group.specs.Answers.{symbol_answer, order_of, operation_at, translation_at};
ghost use Rattle.symbol_group.specs.Slots.{answer_by, head_by};

pub mod refusal;

use centering::Centering;
use hall_symbol::HallSymbol;
use operation::Operation;
use operation::doubles::{Doubles, to_doubles};
use refusal::Refusal;
use space_group::SpaceGroup;

#[derive(Clone, Copy)]
pub enum Answer {
    Group,
    Refused(Refusal),
}

// The first `count` operations are the list, the others the identity. With n generators the index of operation i times generator j stands at i·n + j
// of the steps; past the last they are 0. A refused symbol has centering P, no operations and no generators.
#[derive(Clone, Copy)]
pub struct SymbolGroup {
    pub answer: Answer,
    pub centering: Centering,
    pub count: usize,
    pub operations: [Operation; 48],
    pub generators: usize,
    pub steps: [u8; 432],
}

// What of the answer the text decides.
#[derive(Clone, Copy)]
struct Head {
    answer: Answer,
    count: usize,
}

fn answer_of(answer: space_group::Answer) -> Answer
    ensures { result ≡ answer_by answer }
{
    match answer {
        space_group::Answer::Group => Answer::Group,
        space_group::Answer::Refused(refusal) => Answer::Refused(Refusal::Group(refusal)),
    }
}

fn head_of(read: hall_symbol::Answer, told: space_group::Answer, count: usize) -> Head
    ensures { result ≡ head_by read told count }
{
    match read {
        hall_symbol::Answer::Refused(refusal) => Head {
            answer: Answer::Refused(Refusal::Text(refusal)),
            count: 0,
        },
        hall_symbol::Answer::Symbol => Head {
            answer: answer_of(told),
            count,
        },
    }
}

impl SymbolGroup {
    // A refused text has no generators, and these make the identity alone: so its slots are those of a refusal, and the 48 are laid out in one place.
    pub fn new(text: &[u8]) -> SymbolGroup
        ensures { result ≡ symbol_answer text.now }
    {
        let symbol = HallSymbol::new(text);
        let letter = symbol.centering;
        let generators = symbol.generators;
        let g = SpaceGroup::new(letter, symbol.count, generators);
        let head = head_of(symbol.answer, g.answer, g.count);
        let operations = g.operations;
        let steps = g.steps;
        SymbolGroup {
            answer: head.answer,
            centering: g.centering,
            count: head.count,
            operations,
            generators: g.generators,
            steps,
        }
    }
}

pub fn order(text: &[u8]) -> Result<usize, Refusal>
    ensures { result ≡ order_of text.now }
{
    let g = SymbolGroup::new(text);
    match g.answer {
        Answer::Group => Ok(g.count),
        Answer::Refused(refusal) => Err(refusal),
    }
}

// Operation number i in list order.
pub fn operation_at(text: &[u8], index: usize) -> Result<Option<Operation>, Refusal>
    ensures { result ≡ operation_at text.now index }
{
    let g = SymbolGroup::new(text);
    match g.answer {
        Answer::Refused(refusal) => Err(refusal),
        Answer::Group if index < g.count => Ok(Some(g.operations[index])),
        Answer::Group => Ok(None),
    }
}

// Its translation, each coordinate divided by 12 once.
pub fn translation_at(text: &[u8], index: usize) -> Result<Option<Doubles>, Refusal>
    ensures { result ≡ translation_at text.now index }
{
    match operation_at(text, index) {
        Err(refusal) => Err(refusal),
        Ok(None) => Ok(None),
        Ok(Some(o)) => Ok(Some(to_doubles(o.translation))),
    }
}
