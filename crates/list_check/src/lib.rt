// Whether another program's list of operations is that of a symbol's group modulo the lattice, and if not, what is wrong with it: (xii) of the requests.
// New beside moyo 0.21.0, which compares no lists.
#![tactic(auto)]

ghost use Rattle.std.specs.Prelude.{◌≡◌, ◌≤◌, length};
ghost use Rattle.list_check.specs.Checked.{checked_of, list_answer, slot_at};
ghost use Rattle.list_check.specs.Slots.{Coded, Once};

mod comparing;
mod entries;
pub mod refusal;

use centering::Centering;
use comparing::{compare, lowest_missing};
use entries::first_wrong;
use operation::Operation;
use refusal::Refusal;
use symbol_group::{Answer, SymbolGroup};

// What is said of a list. `Entry` is the first entry that is foreign or repeated, by its index; `Missing` the lowest code of a rotation that no entry has.
#[derive(Clone, Copy)]
pub enum Verdict {
    Yes,
    Entry(usize),
    Missing(u32),
}

// Five bytes an operation, in any order, with any translations 0 to 11.
pub fn check_list(text: &[u8], list: &[u8]) -> Result<Verdict, Refusal>
    ensures { result ≡ checked_of text.now list.now }
{
    let g = SymbolGroup::new(text);
    match g.answer {
        Answer::Refused(refusal) => Err(Refusal::Symbol(refusal)),
        Answer::Group => {
            // A part of the group would be lent from a copy of the whole.
            let operations = g.operations;
            check_bytes(g.centering, &operations[..g.count], list)
        }
    }
}

fn check_bytes(c: Centering, operations: &[Operation], list: &[u8]) -> Result<Verdict, Refusal>
    requires { (length operations.now ≤ 48) × Once (length operations.now) (slot_at operations.now) × Coded (length operations.now) (slot_at operations.now) }
    ensures { result ≡ list_answer c (length operations.now) (slot_at operations.now) list.now }
{
    let size = list.len();
    if 240 < size || size % 5 != 0 {
        return Err(Refusal::Length);
    }
    if let Some(wrong) = first_wrong(list) {
        return Err(Refusal::Entry(wrong));
    }
    let seen = match compare(c, operations, list) {
        Ok(seen) => seen,
        Err(entry) => return Ok(Verdict::Entry(entry)),
    };
    match lowest_missing(operations, seen) {
        Some(code) => Ok(Verdict::Missing(code)),
        None => Ok(Verdict::Yes),
    }
}
