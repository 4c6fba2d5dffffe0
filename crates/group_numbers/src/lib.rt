// What C is answered on the group of a symbol or a record, as one number.
#![tactic(auto)]

mod motion;
pub mod record;
pub mod symbol;
