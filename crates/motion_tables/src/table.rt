// What is answered on the cells of a table, whatever they were filled from; without a group the cells are not read. They are lent: 48² of them are too many
// to hand on by value.
// New beside moyo 0.21.0, which keeps a group that it has built.
ghost use Rattle.std.specs.Prelude.{◌≡◌, ℕ};
ghost use Rattle.finite_group.specs.Answers.{identity_answer, subgroups_answer, subgroups_bytes, classes_answer, classes_bytes, conjugate_entry, normalizer_entry, permutation_entry, permutation_list, conjugates_entry, conjugates_list, conjugators_list};
ghost use Rattle.motion_tables.specs.Answers.{of_table, on_source, bytes_on};

use super::Refusal;
use finite_group::number;

fn told(answer: Result<u64, finite_group::Refusal>) -> Result<u64, Refusal>
    ensures { result ≡ of_table answer }
{
    match answer {
        Ok(value) => Ok(value),
        Err(why) => Err(Refusal {
            number: number(why),
            place: 0,
        }),
    }
}

pub fn identity_in(source: Result<usize, Refusal>, table: &[u8]) -> Result<u64, Refusal>
    ensures { result ≡ on_source source (λ (n : ℕ). identity_answer n table.now) }
{
    match source {
        Ok(n) => told(finite_group::identity(n, table)),
        Err(refusal) => Err(refusal),
    }
}

pub fn subgroups_in(
    source: Result<usize, Refusal>,
    table: &[u8],
    sets: &mut [u8],
) -> Result<u64, Refusal>
    ensures { (result ≡ on_source source (λ (n : ℕ). subgroups_answer n table.now sets.old))
        × (sets.new ≡ bytes_on source sets.old (λ (n : ℕ). subgroups_bytes n table.now sets.old)) }
{
    match source {
        Ok(n) => told(finite_group::enumerate_subgroups(n, table, sets)),
        Err(refusal) => Err(refusal),
    }
}

pub fn classes_in(
    source: Result<usize, Refusal>,
    table: &[u8],
    sets: &mut [u8],
) -> Result<u64, Refusal>
    ensures { (result ≡ on_source source (λ (n : ℕ). classes_answer n table.now sets.old))
        × (sets.new ≡ bytes_on source sets.old (λ (n : ℕ). classes_bytes n table.now sets.old)) }
{
    match source {
        Ok(n) => told(finite_group::conjugacy_classes(n, table, sets)),
        Err(refusal) => Err(refusal),
    }
}

pub fn conjugate_in(
    source: Result<usize, Refusal>,
    table: &[u8],
    set: u64,
    element: usize,
) -> Result<u64, Refusal>
    ensures { result ≡ on_source source (λ (n : ℕ). conjugate_entry n table.now set element) }
{
    match source {
        Ok(n) => told(finite_group::conjugate(n, table, set, element)),
        Err(refusal) => Err(refusal),
    }
}

pub fn normalizer_in(source: Result<usize, Refusal>, table: &[u8], set: u64) -> Result<u64, Refusal>
    ensures { result ≡ on_source source (λ (n : ℕ). normalizer_entry n table.now set) }
{
    match source {
        Ok(n) => told(finite_group::normalizer(n, table, set)),
        Err(refusal) => Err(refusal),
    }
}

pub fn permutation_in(
    source: Result<usize, Refusal>,
    table: &[u8],
    set: u64,
    element: usize,
    positions: &mut [u8],
) -> Result<u64, Refusal>
    ensures { (result ≡ on_source source (λ (n : ℕ). permutation_entry n table.now set element positions.old))
        × (positions.new ≡ bytes_on source positions.old
        (λ (n : ℕ). permutation_list n table.now set element positions.old)) }
{
    match source {
        Ok(n) => told(finite_group::normalizer_action(n, table, set, element, positions)),
        Err(refusal) => Err(refusal),
    }
}

pub fn conjugates_in(
    source: Result<usize, Refusal>,
    table: &[u8],
    set: u64,
    sets: &mut [u8],
    conjugators: &mut [u8],
) -> Result<u64, Refusal>
    ensures { (result ≡ on_source source (λ (n : ℕ). conjugates_entry n table.now set sets.old conjugators.old))
        × (sets.new ≡ bytes_on source sets.old
        (λ (n : ℕ). conjugates_list n table.now set sets.old conjugators.old))
        × (conjugators.new ≡ bytes_on source conjugators.old
        (λ (n : ℕ). conjugators_list n table.now set sets.old conjugators.old)) }
{
    match source {
        Ok(n) => told(finite_group::conjugates(n, table, set, sets, conjugators)),
        Err(refusal) => Err(refusal),
    }
}
