// The groups of symbols and records: what is asked of a table in `finite_group`, asked in one call of a symbol's text or of a record.
// Ported from subgroup/finite_group.rs of moyo 0.21.0 (`FiniteGroup`), and changed: one call from the text or the record, numbered refusals.
#![tactic(auto)]

pub use motion_tables::Refusal;

pub mod record;
pub mod symbol;
