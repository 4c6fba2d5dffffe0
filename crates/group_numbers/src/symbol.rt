// What is asked of the group that a symbol's text spells.
ghost use Rattle.std.specs.Prelude.{◌≡◌, List, ℕ};
ghost use Rattle.finite_group.specs.Answers.{identity_answer, subgroups_answer, subgroups_bytes, classes_answer, classes_bytes, conjugate_entry, normalizer_entry, permutation_entry, permutation_list, conjugates_entry, conjugates_list, conjugators_list};
ghost use Rattle.motion_tables.specs.Answers.{motion_answer, on_symbol, bytes_on_symbol};
ghost use Rattle.answer_numbers.specs.Packing.{packed};

use super::motion::answered;

pub fn identity(text: &[u8]) -> u64
    ensures { result ≡ packed (motion_answer (on_symbol text.now (λ (n : ℕ) (t : List ℕ). identity_answer n t))) }
{
    answered(motion_group::symbol::identity(text))
}

pub fn subgroups(text: &[u8], sets: &mut [u8]) -> u64
    ensures { (result ≡ packed (motion_answer (on_symbol text.now (λ (n : ℕ) (t : List ℕ). subgroups_answer n t sets.old))))
        × (sets.new ≡ bytes_on_symbol text.now sets.old (λ (n : ℕ) (t : List ℕ). subgroups_bytes n t sets.old)) }
{
    answered(motion_group::symbol::enumerate_subgroups(text, sets))
}

pub fn classes(text: &[u8], sets: &mut [u8]) -> u64
    ensures { (result ≡ packed (motion_answer (on_symbol text.now (λ (n : ℕ) (t : List ℕ). classes_answer n t sets.old))))
        × (sets.new ≡ bytes_on_symbol text.now sets.old (λ (n : ℕ) (t : List ℕ). classes_bytes n t sets.old)) }
{
    answered(motion_group::symbol::conjugacy_classes(text, sets))
}

pub fn conjugate(text: &[u8], set: u64, element: u64) -> u64
    ensures { result ≡ packed (motion_answer (on_symbol text.now (λ (n : ℕ) (t : List ℕ). conjugate_entry n t set element))) }
{
    answered(motion_group::symbol::conjugate(text, set, element as usize))
}

pub fn conjugates(text: &[u8], set: u64, sets: &mut [u8], conjugators: &mut [u8]) -> u64
    ensures { (result ≡ packed (motion_answer (on_symbol text.now
        (λ (n : ℕ) (t : List ℕ). conjugates_entry n t set sets.old conjugators.old))))
        × (sets.new ≡ bytes_on_symbol text.now sets.old
        (λ (n : ℕ) (t : List ℕ). conjugates_list n t set sets.old conjugators.old))
        × (conjugators.new ≡ bytes_on_symbol text.now conjugators.old
        (λ (n : ℕ) (t : List ℕ). conjugators_list n t set sets.old conjugators.old)) }
{
    answered(motion_group::symbol::conjugates(text, set, sets, conjugators))
}

pub fn normalizer(text: &[u8], set: u64) -> u64
    ensures { result ≡ packed (motion_answer (on_symbol text.now (λ (n : ℕ) (t : List ℕ). normalizer_entry n t set))) }
{
    answered(motion_group::symbol::normalizer(text, set))
}

pub fn permutation(text: &[u8], set: u64, element: u64, positions: &mut [u8]) -> u64
    ensures { (result ≡ packed (motion_answer (on_symbol text.now
        (λ (n : ℕ) (t : List ℕ). permutation_entry n t set element positions.old))))
        × (positions.new ≡ bytes_on_symbol text.now positions.old
        (λ (n : ℕ) (t : List ℕ). permutation_list n t set element positions.old)) }
{
    answered(motion_group::symbol::normalizer_action(text, set, element as usize, positions))
}
