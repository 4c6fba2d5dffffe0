// The subgroups of a table's group, and the first of each class, into lent slots.
// Ported from subgroup/finite_group.rs of moyo 0.21.0 (`enumerate_subgroups`, `conjugacy_classes`), and changed: a flat table of bytes, lent slots, refusals.
#![tactic(auto)]

ghost use Rattle.std.specs.Prelude.{◌≡◌};
ghost use Rattle.subgroup_search.specs.Answers.{subgroups_answer, subgroups_bytes, classes_answer, classes_bytes};

use search::list_sets;
use table_check::{Refusal, from_table};

mod adjoin;
mod classes;
mod search;

// All subgroups into lent slots of eight bytes, in list order; the answer is their count.
pub fn enumerate_subgroups(n: usize, table: &[u8], sets: &mut [u8]) -> Result<u64, Refusal>
    ensures { (result ≡ subgroups_answer n table.now sets.old)
        × (sets.new ≡ subgroups_bytes n table.now sets.old) }
{
    match from_table(n, table) {
        Ok(e) => list_sets(sets, table, n, e, false),
        Err(r) => Err(r),
    }
}

// The first subgroup of each class into lent slots of eight bytes, in list order; the answer is the count of classes.
pub fn conjugacy_classes(n: usize, table: &[u8], sets: &mut [u8]) -> Result<u64, Refusal>
    ensures { (result ≡ classes_answer n table.now sets.old)
        × (sets.new ≡ classes_bytes n table.now sets.old) }
{
    match from_table(n, table) {
        Ok(e) => list_sets(sets, table, n, e, true),
        Err(r) => Err(r),
    }
}
