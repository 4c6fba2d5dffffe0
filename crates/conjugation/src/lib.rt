// A subgroup of a table's group: its conjugates with their conjugators, its normalizer, and the permutations of its members.
// Ported from subgroup/finite_group.rs of moyo 0.21.0 (`conjugate`, `normalizer_action`, `conjugacy_classes`), and changed: a flat table of bytes, sets as
// 64-bit numbers in lent slots, refusals.
#![tactic(auto)]

ghost use Rattle.std.specs.Prelude.{◌≡◌};
ghost use Rattle.conjugation.specs.Answers.{conjugate_entry, normalizer_entry, permutation_entry, permutation_list, conjugates_entry, conjugates_list, conjugators_list};

use conjugate_list::conjugates_in;
use permutation::permutation_in;
use subgroup::{conjugate_in, normalizer_in};
use table_check::{Refusal, from_table};

mod conjugate_list;
mod permutation;
mod subgroup;

// The conjugate g⁻¹ H g of a subgroup.
pub fn conjugate(n: usize, table: &[u8], set: u64, element: usize) -> Result<u64, Refusal>
    ensures { result ≡ conjugate_entry n table.now set element }
{
    match from_table(n, table) {
        Ok(e) => conjugate_in(table, n, e, set, element),
        Err(r) => Err(r),
    }
}

// The elements that conjugate a subgroup to itself, as a set.
pub fn normalizer(n: usize, table: &[u8], set: u64) -> Result<u64, Refusal>
    ensures { result ≡ normalizer_entry n table.now set }
{
    match from_table(n, table) {
        Ok(e) => normalizer_in(table, n, e, set),
        Err(r) => Err(r),
    }
}

// The permutation of a subgroup's members by an element of its normalizer, into a lent list of bytes; the answer is the count of members.
pub fn normalizer_action(
    n: usize,
    table: &[u8],
    set: u64,
    element: usize,
    positions: &mut [u8],
) -> Result<u64, Refusal>
    ensures { (result ≡ permutation_entry n table.now set element positions.old)
        × (positions.new ≡ permutation_list n table.now set element positions.old) }
{
    match from_table(n, table) {
        Ok(e) => permutation_in(positions, table, n, e, set, element),
        Err(r) => Err(r),
    }
}

// A subgroup's conjugates into lent slots of eight bytes and their conjugators into a lent list of bytes: the subgroup first with the
// identity, the others in list order, each with its smallest conjugator; the answer is their count.
pub fn conjugates(
    n: usize,
    table: &[u8],
    set: u64,
    sets: &mut [u8],
    conjugators: &mut [u8],
) -> Result<u64, Refusal>
    ensures { (result ≡ conjugates_entry n table.now set sets.old conjugators.old)
        × (sets.new ≡ conjugates_list n table.now set sets.old conjugators.old)
        × (conjugators.new ≡ conjugators_list n table.now set sets.old conjugators.old) }
{
    match from_table(n, table) {
        Ok(e) => conjugates_in(sets, conjugators, table, n, e, set),
        Err(r) => Err(r),
    }
}
