// Writing magnetic records: of a magnetic symbol, and of what was read; new in the port, as these records are.
#![tactic(auto)]

pub mod copier;
pub mod symbol;
mod writer;
