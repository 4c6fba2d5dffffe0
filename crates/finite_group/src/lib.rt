// Finite groups given by the bytes of their tables: the check of a table, subgroups, conjugates, classes, normalizers and their permutations. Each entry is
// that of the room which finds its answer.
// Ported from subgroup/finite_group.rs of moyo 0.21.0 (`FiniteGroup`), and changed: a flat table of bytes, sets as 64-bit numbers in lent slots, refusals.
#![tactic(auto)]

ghost use Rattle.std.specs.Prelude.{◌≡◌};
ghost use Rattle.finite_group.specs.Answers.{number_of, order_answer, identity_answer, subgroups_answer, subgroups_bytes, classes_answer, classes_bytes, conjugate_entry, normalizer_entry, permutation_entry, permutation_list, conjugates_entry, conjugates_list, conjugators_list};

pub use table_check::Refusal;
use table_check::from_table;

pub fn number(refusal: Refusal) -> u8
    ensures { result ≡ number_of refusal }
{
    match refusal {
        Refusal::Order => 21,
        Refusal::Cells => 22,
        Refusal::Identity => 23,
        Refusal::Inverse => 24,
        Refusal::Associativity => 25,
        Refusal::Slots => 26,
        Refusal::Subgroup => 27,
        Refusal::Element => 28,
        Refusal::Normalizer => 29,
    }
}

pub fn order(n: usize, table: &[u8]) -> Result<u64, Refusal>
    ensures { result ≡ order_answer n table.now }
{
    match from_table(n, table) {
        Ok(_) => Ok(n as u64),
        Err(r) => Err(r),
    }
}

pub fn identity(n: usize, table: &[u8]) -> Result<u64, Refusal>
    ensures { result ≡ identity_answer n table.now }
{
    match from_table(n, table) {
        Ok(e) => Ok(e as u64),
        Err(r) => Err(r),
    }
}

// All subgroups into lent slots of eight bytes, in list order; the answer is their count.
pub fn enumerate_subgroups(n: usize, table: &[u8], sets: &mut [u8]) -> Result<u64, Refusal>
    ensures { (result ≡ subgroups_answer n table.now sets.old)
        × (sets.new ≡ subgroups_bytes n table.now sets.old) }
{
    subgroup_search::enumerate_subgroups(n, table, sets)
}

// The first subgroup of each class into lent slots of eight bytes, in list order; the answer is the count of classes.
pub fn conjugacy_classes(n: usize, table: &[u8], sets: &mut [u8]) -> Result<u64, Refusal>
    ensures { (result ≡ classes_answer n table.now sets.old)
        × (sets.new ≡ classes_bytes n table.now sets.old) }
{
    subgroup_search::conjugacy_classes(n, table, sets)
}

// The conjugate g⁻¹ H g of a subgroup.
pub fn conjugate(n: usize, table: &[u8], set: u64, element: usize) -> Result<u64, Refusal>
    ensures { result ≡ conjugate_entry n table.now set element }
{
    conjugation::conjugate(n, table, set, element)
}

// The elements that conjugate a subgroup to itself, as a set.
pub fn normalizer(n: usize, table: &[u8], set: u64) -> Result<u64, Refusal>
    ensures { result ≡ normalizer_entry n table.now set }
{
    conjugation::normalizer(n, table, set)
}

// The permutation of a subgroup's members by an element of its normalizer, into a lent list of bytes; the answer is the count of members.
pub fn normalizer_action(
    n: usize,
    table: &[u8],
    set: u64,
    element: usize,
    positions: &mut [u8],
) -> Result<u64, Refusal>
    ensures { (result ≡ permutation_entry n table.now set element positions.old)
        × (positions.new ≡ permutation_list n table.now set element positions.old) }
{
    conjugation::normalizer_action(n, table, set, element, positions)
}

// A subgroup's conjugates into lent slots of eight bytes and their conjugators into a lent list of bytes: the subgroup first with the
// identity, the others in list order, each with its smallest conjugator; the answer is their count.
pub fn conjugates(
    n: usize,
    table: &[u8],
    set: u64,
    sets: &mut [u8],
    conjugators: &mut [u8],
) -> Result<u64, Refusal>
    ensures { (result ≡ conjugates_entry n table.now set sets.old conjugators.old)
        × (sets.new ≡ conjugates_list n table.now set sets.old conjugators.old)
        × (conjugators.new ≡ conjugators_list n table.now set sets.old conjugators.old) }
{
    conjugation::conjugates(n, table, set, sets, conjugators)
}
