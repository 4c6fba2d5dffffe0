// What is asked of the group that a record lists.
ghost use Rattle.std.specs.Prelude.{◌≡◌, List, ℕ};
ghost use Rattle.finite_group.specs.Answers.{identity_answer, subgroups_answer, subgroups_bytes, classes_answer, classes_bytes, conjugate_entry, normalizer_entry, permutation_entry, permutation_list, conjugates_entry, conjugates_list, conjugators_list};
ghost use Rattle.motion_tables.specs.Answers.{motion_answer, on_record, bytes_on_record};
ghost use Rattle.answer_numbers.specs.Packing.{packed};

use super::motion::answered;

pub fn identity(bytes: &[u8]) -> u64
    ensures { result ≡ packed (motion_answer (on_record bytes.now (λ (n : ℕ) (t : List ℕ). identity_answer n t))) }
{
    answered(motion_group::record::identity(bytes))
}

pub fn subgroups(bytes: &[u8], sets: &mut [u8]) -> u64
    ensures { (result ≡ packed (motion_answer (on_record bytes.now (λ (n : ℕ) (t : List ℕ). subgroups_answer n t sets.old))))
        × (sets.new ≡ bytes_on_record bytes.now sets.old (λ (n : ℕ) (t : List ℕ). subgroups_bytes n t sets.old)) }
{
    answered(motion_group::record::enumerate_subgroups(bytes, sets))
}

pub fn classes(bytes: &[u8], sets: &mut [u8]) -> u64
    ensures { (result ≡ packed (motion_answer (on_record bytes.now (λ (n : ℕ) (t : List ℕ). classes_answer n t sets.old))))
        × (sets.new ≡ bytes_on_record bytes.now sets.old (λ (n : ℕ) (t : List ℕ). classes_bytes n t sets.old)) }
{
    answered(motion_group::record::conjugacy_classes(bytes, sets))
}

pub fn conjugate(bytes: &[u8], set: u64, element: u64) -> u64
    ensures { result ≡ packed (motion_answer (on_record bytes.now (λ (n : ℕ) (t : List ℕ). conjugate_entry n t set element))) }
{
    answered(motion_group::record::conjugate(bytes, set, element as usize))
}

pub fn conjugates(bytes: &[u8], set: u64, sets: &mut [u8], conjugators: &mut [u8]) -> u64
    ensures { (result ≡ packed (motion_answer (on_record bytes.now
        (λ (n : ℕ) (t : List ℕ). conjugates_entry n t set sets.old conjugators.old))))
        × (sets.new ≡ bytes_on_record bytes.now sets.old
        (λ (n : ℕ) (t : List ℕ). conjugates_list n t set sets.old conjugators.old))
        × (conjugators.new ≡ bytes_on_record bytes.now conjugators.old
        (λ (n : ℕ) (t : List ℕ). conjugators_list n t set sets.old conjugators.old)) }
{
    answered(motion_group::record::conjugates(bytes, set, sets, conjugators))
}

pub fn normalizer(bytes: &[u8], set: u64) -> u64
    ensures { result ≡ packed (motion_answer (on_record bytes.now (λ (n : ℕ) (t : List ℕ). normalizer_entry n t set))) }
{
    answered(motion_group::record::normalizer(bytes, set))
}

pub fn permutation(bytes: &[u8], set: u64, element: u64, positions: &mut [u8]) -> u64
    ensures { (result ≡ packed (motion_answer (on_record bytes.now
        (λ (n : ℕ) (t : List ℕ). permutation_entry n t set element positions.old))))
        × (positions.new ≡ bytes_on_record bytes.now positions.old
        (λ (n : ℕ) (t : List ℕ). permutation_list n t set element positions.old)) }
{
    answered(motion_group::record::normalizer_action(bytes, set, element as usize, positions))
}
