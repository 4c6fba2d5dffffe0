// What C is answered on a magnetic symbol's text and on records of edition 2, as one number.
#![tactic(auto)]

pub mod record;
pub mod symbol;
