// Between a source of a group, a symbol's text or a record, and what is asked of its table: the table into lent cells, and the answers on it, with every
// refusal as a number and a place.
// Ported from subgroup/finite_group.rs of moyo 0.21.0 (`FiniteGroup`), and changed: from the text or the record, numbered refusals.
#![tactic(auto)]

pub mod record;
pub mod symbol;
pub mod table;

// Why there is no answer: the number and the place of R8, of the symbol, of the record, or of its group. The place stands first, where an answer has
// its value: a caller then picks one of two whole words, which takes less code than parts of one.
#[derive(Clone, Copy)]
pub struct Refusal {
    pub place: usize,
    pub number: u8,
}

// What lent cells were filled from, and where in them its table ends: at order², and at 0 on refusal. The end is told here, where the order is known to be
// at most 48, so that whoever cuts the table off needs no test.
#[derive(Clone, Copy)]
pub struct Filled {
    pub source: Result<usize, Refusal>,
    pub end: usize,
}
