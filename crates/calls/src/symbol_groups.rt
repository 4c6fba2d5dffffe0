// On the group that a symbol's text spells.
ghost use Rattle.std.specs.Prelude.{◌≡◌, List, ℕ};
ghost use Rattle.finite_group.specs.Answers.{identity_answer, subgroups_answer, subgroups_bytes, classes_answer, classes_bytes, conjugate_entry, normalizer_entry, permutation_entry, permutation_list, conjugates_entry, conjugates_list, conjugators_list};
ghost use Rattle.motion_tables.specs.Answers.{motion_answer, on_symbol, bytes_on_symbol};
ghost use Rattle.answer_numbers.specs.Packing.{packed};

#[unsafe(no_mangle)]
pub extern "C" fn symmetry_symbol_identity(text: &[u8]) -> u64
    ensures { result ≡ packed (motion_answer (on_symbol text.now (λ (n : ℕ) (t : List ℕ). identity_answer n t))) }
{
    group_numbers::symbol::identity(text)
}

#[unsafe(no_mangle)]
pub extern "C" fn symmetry_symbol_subgroups(text: &[u8], sets: &mut [u8]) -> u64
    ensures { (result ≡ packed (motion_answer (on_symbol text.now (λ (n : ℕ) (t : List ℕ). subgroups_answer n t sets.old))))
        × (sets.new ≡ bytes_on_symbol text.now sets.old (λ (n : ℕ) (t : List ℕ). subgroups_bytes n t sets.old)) }
{
    group_numbers::symbol::subgroups(text, sets)
}

#[unsafe(no_mangle)]
pub extern "C" fn symmetry_symbol_classes(text: &[u8], sets: &mut [u8]) -> u64
    ensures { (result ≡ packed (motion_answer (on_symbol text.now (λ (n : ℕ) (t : List ℕ). classes_answer n t sets.old))))
        × (sets.new ≡ bytes_on_symbol text.now sets.old (λ (n : ℕ) (t : List ℕ). classes_bytes n t sets.old)) }
{
    group_numbers::symbol::classes(text, sets)
}

#[unsafe(no_mangle)]
pub extern "C" fn symmetry_symbol_conjugate(text: &[u8], set: u64, element: u64) -> u64
    ensures { result ≡ packed (motion_answer (on_symbol text.now (λ (n : ℕ) (t : List ℕ). conjugate_entry n t set element))) }
{
    group_numbers::symbol::conjugate(text, set, element)
}

#[unsafe(no_mangle)]
pub extern "C" fn symmetry_symbol_conjugates(
    text: &[u8],
    set: u64,
    sets: &mut [u8],
    conjugators: &mut [u8],
) -> u64
    ensures { (result ≡ packed (motion_answer (on_symbol text.now
        (λ (n : ℕ) (t : List ℕ). conjugates_entry n t set sets.old conjugators.old))))
        × (sets.new ≡ bytes_on_symbol text.now sets.old
        (λ (n : ℕ) (t : List ℕ). conjugates_list n t set sets.old conjugators.old))
        × (conjugators.new ≡ bytes_on_symbol text.now conjugators.old
        (λ (n : ℕ) (t : List ℕ). conjugators_list n t set sets.old conjugators.old)) }
{
    group_numbers::symbol::conjugates(text, set, sets, conjugators)
}

#[unsafe(no_mangle)]
pub extern "C" fn symmetry_symbol_normalizer(text: &[u8], set: u64) -> u64
    ensures { result ≡ packed (motion_answer (on_symbol text.now (λ (n : ℕ) (t : List ℕ). normalizer_entry n t set))) }
{
    group_numbers::symbol::normalizer(text, set)
}

#[unsafe(no_mangle)]
pub extern "C" fn symmetry_symbol_permutation(
    text: &[u8],
    set: u64,
    element: u64,
    positions: &mut [u8],
) -> u64
    ensures { (result ≡ packed (motion_answer (on_symbol text.now
        (λ (n : ℕ) (t : List ℕ). permutation_entry n t set element positions.old))))
        × (positions.new ≡ bytes_on_symbol text.now positions.old
        (λ (n : ℕ) (t : List ℕ). permutation_list n t set element positions.old)) }
{
    group_numbers::symbol::permutation(text, set, element, positions)
}
