// The entries of a list against the operations of a group: the set of operations seen so far tells a repeated entry, and in the end what is missing.
ghost use Rattle.std.specs.Prelude.{◌≡◌, ◌<◌, ◌≤◌, ℕ, length, position};
ghost use Rattle.list_check.specs.Checked.{alike, slot_at};
ghost use Rattle.list_check.specs.Entries.{RightLength};
ghost use Rattle.list_check.specs.Slots.{Compares, Coded, Once, code_found, lowest_unseen};

use super::entries::operation_at;
use centering::Centering;
use element_sets::sets::{contains, with_element};
use operation::Operation;
use operation::code::rotation_code;

// One rotation, and translations in one class modulo the lattice.
fn alike_operations(c: Centering, f: Operation, g: Operation) -> bool
    ensures { result ≡ alike c f g }
{
    rotation_code(f.rotation) == rotation_code(g.rotation)
        && c.congruent(f.translation, g.translation)
}

// The index of the first operation of the group that an entry is, modulo the lattice.
fn place_of(c: Centering, operations: &[Operation], e: Operation) -> Option<usize>
    ensures { result ≡ position (alike c e) operations.now }
{
    operations.iter().position(|f| alike_operations(c, e, *f))
}

// The indices of the operations that the entries are, or the first entry that is foreign or repeated.
pub(crate) fn compare(c: Centering, operations: &[Operation], list: &[u8]) -> Result<u64, usize>
    requires { (length operations.now ≤ 48) × Once (length operations.now) (slot_at operations.now) × RightLength list.now }
    ensures { Compares c operations.now list.now result }
{
    let mut seen = 0u64;
    for i in 0..list.len() / 5 {
        let Some(k) = place_of(c, operations, operation_at(list, i)) else {
            return Err(i);
        };
        if contains(seen, k) {
            return Err(i);
        }
        seen = with_element(seen, k);
    }
    Ok(seen)
}

// The lowest code of an operation that was not seen.
pub(crate) fn lowest_missing(operations: &[Operation], seen: u64) -> Option<u32>
    requires { (length operations.now ≤ 48) × Coded (length operations.now) (slot_at operations.now) }
    ensures { result ≡ code_found (lowest_unseen (length operations.now) operations.now seen) }
{
    let mut lowest: Option<u32> = None;
    for (k, operation) in operations.iter().enumerate() {
        if !contains(seen, k) {
            let code = rotation_code(operation.rotation);
            lowest = Some(lowest.map_or(code, |best| best.min(code)));
        }
    }
    lowest
}
