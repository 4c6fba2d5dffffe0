// Reading magnetic records: the rules of refusals 30 to 35, tried on the bytes as they stand; new in the port, as these records are.
#![tactic(auto)]

mod group;
mod items;
pub mod reader;
