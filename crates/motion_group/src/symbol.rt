// The group of a symbol's text: order, identity, subgroups, classes, conjugates, normalizers and permutations, or the symbol's refusal.
// Ported from subgroup/finite_group.rs of moyo 0.21.0 (`FiniteGroup`), and changed: one call from the text.
ghost use Rattle.std.specs.Prelude.{◌≡◌, List, ℕ, Ok};
ghost use Rattle.finite_group.specs.Answers.{identity_answer, subgroups_answer, subgroups_bytes, classes_answer, classes_bytes, conjugate_entry, normalizer_entry, permutation_entry, permutation_list, conjugates_entry, conjugates_list, conjugators_list};
ghost use Rattle.motion_tables.specs.Answers.{on_symbol, bytes_on_symbol};

use motion_tables::Refusal;
use motion_tables::symbol::{in_numbers, table};
use motion_tables::table::{
    classes_in, conjugate_in, conjugates_in, normalizer_in, permutation_in, subgroups_in,
};

pub fn order(text: &[u8]) -> Result<u64, Refusal>
    ensures { result ≡ on_symbol text.now (λ (n : ℕ) (t : List ℕ). Ok n) }
{
    match symbol_group::order(text) {
        Ok(n) => Ok(n as u64),
        Err(refusal) => Err(in_numbers(refusal)),
    }
}

// A symbol's list starts with the identity.
pub fn identity(text: &[u8]) -> Result<u64, Refusal>
    ensures { result ≡ on_symbol text.now (λ (n : ℕ) (t : List ℕ). identity_answer n t) }
{
    match symbol_group::order(text) {
        Ok(_) => Ok(0),
        Err(refusal) => Err(in_numbers(refusal)),
    }
}

// All subgroups into lent slots of eight bytes, in list order; the answer is their count.
pub fn enumerate_subgroups(text: &[u8], sets: &mut [u8]) -> Result<u64, Refusal>
    ensures { (result ≡ on_symbol text.now (λ (n : ℕ) (t : List ℕ). subgroups_answer n t sets.old))
        × (sets.new ≡ bytes_on_symbol text.now sets.old (λ (n : ℕ) (t : List ℕ). subgroups_bytes n t sets.old)) }
{
    let mut cells = [0u8; 2304];
    let filled = table(text, &mut cells);
    let source = filled.source;
    let end = filled.end;
    subgroups_in(source, &cells[0..end], sets)
}

// The first subgroup of each class into lent slots of eight bytes, in list order; the answer is the count of classes.
pub fn conjugacy_classes(text: &[u8], sets: &mut [u8]) -> Result<u64, Refusal>
    ensures { (result ≡ on_symbol text.now (λ (n : ℕ) (t : List ℕ). classes_answer n t sets.old))
        × (sets.new ≡ bytes_on_symbol text.now sets.old (λ (n : ℕ) (t : List ℕ). classes_bytes n t sets.old)) }
{
    let mut cells = [0u8; 2304];
    let filled = table(text, &mut cells);
    let source = filled.source;
    let end = filled.end;
    classes_in(source, &cells[0..end], sets)
}

// The conjugate g⁻¹ H g of a subgroup.
pub fn conjugate(text: &[u8], set: u64, element: usize) -> Result<u64, Refusal>
    ensures { result ≡ on_symbol text.now (λ (n : ℕ) (t : List ℕ). conjugate_entry n t set element) }
{
    let mut cells = [0u8; 2304];
    let filled = table(text, &mut cells);
    let source = filled.source;
    let end = filled.end;
    conjugate_in(source, &cells[0..end], set, element)
}

// The elements that conjugate a subgroup to itself, as a set.
pub fn normalizer(text: &[u8], set: u64) -> Result<u64, Refusal>
    ensures { result ≡ on_symbol text.now (λ (n : ℕ) (t : List ℕ). normalizer_entry n t set) }
{
    let mut cells = [0u8; 2304];
    let filled = table(text, &mut cells);
    let source = filled.source;
    let end = filled.end;
    normalizer_in(source, &cells[0..end], set)
}

// The permutation of a subgroup's members by an element of its normalizer, into a lent list of bytes; the answer is the count of members.
pub fn normalizer_action(
    text: &[u8],
    set: u64,
    element: usize,
    positions: &mut [u8],
) -> Result<u64, Refusal>
    ensures { (result ≡ on_symbol text.now (λ (n : ℕ) (t : List ℕ). permutation_entry n t set element positions.old))
        × (positions.new ≡ bytes_on_symbol text.now positions.old
        (λ (n : ℕ) (t : List ℕ). permutation_list n t set element positions.old)) }
{
    let mut cells = [0u8; 2304];
    let filled = table(text, &mut cells);
    let source = filled.source;
    let end = filled.end;
    permutation_in(source, &cells[0..end], set, element, positions)
}

// A subgroup's conjugates into lent slots of eight bytes and their conjugators into a lent list of bytes; the answer is their count.
pub fn conjugates(
    text: &[u8],
    set: u64,
    sets: &mut [u8],
    conjugators: &mut [u8],
) -> Result<u64, Refusal>
    ensures { (result ≡ on_symbol text.now (λ (n : ℕ) (t : List ℕ). conjugates_entry n t set sets.old conjugators.old))
        × (sets.new ≡ bytes_on_symbol text.now sets.old
        (λ (n : ℕ) (t : List ℕ). conjugates_list n t set sets.old conjugators.old))
        × (conjugators.new ≡ bytes_on_symbol text.now conjugators.old
        (λ (n : ℕ) (t : List ℕ). conjugators_list n t set sets.old conjugators.old)) }
{
    let mut cells = [0u8; 2304];
    let filled = table(text, &mut cells);
    let source = filled.source;
    let end = filled.end;
    conjugates_in(source, &cells[0..end], set, sets, conjugators)
}
