// Reading records: the rules of refusals 30 to 35, tried on the bytes as they stand.
#![tactic(auto)]

pub mod reader;
