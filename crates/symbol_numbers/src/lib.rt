// What C is answered on a symbol's text, as one number: plain or of a layer, its record, and another program's list beside it.
#![tactic(auto)]

pub mod layer;
pub mod list;
pub mod question;
pub mod symbol;
