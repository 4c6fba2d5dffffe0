// Writing records: of a symbol, of a layer symbol, and of what was read, in its own edition or the other.
#![tactic(auto)]

pub mod copier;
pub mod layer;
pub mod symbol;
mod writer;

// Why no record is written: `NoRoom` is refusal 20 at place 0; `Refused` is the refusal of what was to be written, a symbol, a layer symbol or a record.
#[derive(Clone, Copy)]
pub enum Unwritten<R> {
    NoRoom,
    Refused(R),
}
