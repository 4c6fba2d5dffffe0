// The table of a symbol's group and of a record's group, by value: its order, and the index of each product modulo the lattice.
// Ported from subgroup/finite_group.rs of moyo 0.21.0 (`from_operations`), and changed: exact, modulo the centred lattice, from a text or a record.
#![tactic(auto)]

pub mod record;
pub mod symbol;

// With n operations the index of operation i times operation j stands at i·n + j of the cells; past the last they are 0.
// A refused symbol has order 0.
#[derive(Clone, Copy)]
pub struct SymbolTable {
    pub answer: symbol_group::Answer,
    pub order: usize,
    pub cells: [u8; 2304],
}

// The same for a record.
#[derive(Clone, Copy)]
pub struct RecordTable {
    pub answer: group_record::Reading,
    pub order: usize,
    pub cells: [u8; 2304],
}
