// What C is answered on records, as one number: what one holds, a copy in either edition, and how two differ.
#![tactic(auto)]

pub mod comparison;
pub mod editions;
pub mod record;
