// The group of a layer Hall symbol: order, letter and operations in list order, or the refusal. A layer symbol is read as the plain symbol with its letter
// in capitals, and its group must be one of a layer.
// Ported from data/hall_symbol.rs of moyo 0.21.0 (`LayerHallSymbol`), and changed: one call from the text, numbered refusals, and the layer rules.
#![tactic(auto)]

ghost use Rattle.std.specs.Prelude.{◌≡◌, ◌≤◌, length};
ghost use Rattle.symbol_group.specs.Answers.{symbol_answer};
ghost use Rattle.layer_group.specs.Capitals.{capitalised};
ghost use Rattle.layer_group.specs.Layers.{is_layer, off_position};
ghost use Rattle.layer_group.specs.Answers.{refused_answer, layer_answer, order_of, letter_of, operation_at};
ghost use Rattle.layer_group.specs.Slots.{layered_count};

mod capitals;
pub mod refusal;

use centering::Centering;
use operation::Operation;
use operation::product::identity;
use refusal::Refusal;
use symbol_group::SymbolGroup;

#[derive(Clone, Copy)]
pub enum Answer {
    Group,
    Refused(Refusal),
}

// The first `count` operations are the list, the others the identity. The centering is P for the letter p and C for c. A refused symbol has centering P
// and no operations.
#[derive(Clone, Copy)]
pub struct LayerGroup {
    pub answer: Answer,
    pub centering: Centering,
    pub count: usize,
    pub operations: [Operation; 48],
}

fn refused(refusal: Refusal) -> LayerGroup
    ensures { result ≡ refused_answer refusal }
{
    LayerGroup {
        answer: Answer::Refused(refusal),
        centering: Centering::P,
        count: 0,
        operations: [identity(); 48],
    }
}

// Zero in the four entries that mix z with x or y, and no translation along z where the zz entry is 1. A digit is an entry plus one.
#[tactic(auto, unfolding(crate::specs::Layers::is_layer))]
pub fn is_layer(o: Operation) -> bool
    ensures { result ≡ is_layer o }
{
    let r = o.rotation;
    r.xz == 1 && r.yz == 1 && r.zx == 1 && r.zy == 1 && (r.zz != 2 || o.translation.z == 0)
}

// The index of the first operation that is none of a layer.
fn first_off(operations: &[Operation]) -> Option<usize>
    ensures { result ≡ off_position operations.now }
{
    operations.iter().position(|o| !is_layer(*o))
}

// The group of the text with its capital letter. A text of over 80 bytes is refused by the plain reader as it stands.
pub fn plain(text: &[u8]) -> SymbolGroup
    ensures { result ≡ symbol_answer (capitalised text.now) }
{
    if 80 < text.len() {
        return SymbolGroup::new(text);
    }
    let copy = capitals::capitals(text);
    SymbolGroup::new(&copy[..text.len()])
}

// How many operations a plain symbol's group has, if every one is of a layer.
fn layered(g: &SymbolGroup) -> Result<usize, Refusal>
    requires { (g.now.count ≤ 48) × (length g.now.operations ≡ 48) }
    ensures { result ≡ layered_count g.now }
{
    if let symbol_group::Answer::Refused(refusal) = g.answer {
        return Err(Refusal::Symbol(refusal));
    }
    match first_off(&g.operations[..g.count]) {
        Some(off) => Err(Refusal::NoLayer(off)),
        None => Ok(g.count),
    }
}

impl LayerGroup {
    pub fn new(text: &[u8]) -> LayerGroup
        ensures { result ≡ layer_answer text.now }
    {
        let g = plain(text);
        let count = match layered(&g) {
            Ok(count) => count,
            Err(refusal) => return refused(refusal),
        };
        let operations = g.operations;
        LayerGroup {
            answer: Answer::Group,
            centering: g.centering,
            count,
            operations,
        }
    }
}

pub fn order(text: &[u8]) -> Result<usize, Refusal>
    ensures { result ≡ order_of text.now }
{
    let g = plain(text);
    match layered(&g) {
        Ok(count) => Ok(count),
        Err(refusal) => Err(refusal),
    }
}

// The small letter: 32 lies between a capital and its small letter.
pub fn letter(text: &[u8]) -> Result<u8, Refusal>
    ensures { result ≡ letter_of text.now }
{
    let g = plain(text);
    match layered(&g) {
        Ok(_) => Ok(g.centering.byte() + 32),
        Err(refusal) => Err(refusal),
    }
}

// Operation number i in list order.
pub fn operation_at(text: &[u8], index: usize) -> Result<Option<Operation>, Refusal>
    ensures { result ≡ operation_at text.now index }
{
    let g = plain(text);
    match layered(&g) {
        Ok(count) if index < count => Ok(Some(g.operations[index])),
        Ok(_) => Ok(None),
        Err(refusal) => Err(refusal),
    }
}
