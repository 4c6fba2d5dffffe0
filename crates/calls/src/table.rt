// On the bytes of a table.
ghost use Rattle.std.specs.Prelude.{◌≡◌};
ghost use Rattle.finite_group.specs.Answers.{table_answer, order_answer, identity_answer, subgroups_answer, subgroups_bytes, classes_answer, classes_bytes, conjugate_entry, normalizer_entry, permutation_entry, permutation_list, conjugates_entry, conjugates_list, conjugators_list};
ghost use Rattle.answer_numbers.specs.Packing.{packed};

#[unsafe(no_mangle)]
pub extern "C" fn symmetry_table_order(order: u64, table: &[u8]) -> u64
    ensures { result ≡ packed (table_answer (order_answer order table.now)) }
{
    table_numbers::order(order, table)
}

#[unsafe(no_mangle)]
pub extern "C" fn symmetry_table_identity(order: u64, table: &[u8]) -> u64
    ensures { result ≡ packed (table_answer (identity_answer order table.now)) }
{
    table_numbers::identity(order, table)
}

#[unsafe(no_mangle)]
pub extern "C" fn symmetry_table_subgroups(order: u64, table: &[u8], sets: &mut [u8]) -> u64
    ensures { (result ≡ packed (table_answer (subgroups_answer order table.now sets.old)))
        × (sets.new ≡ subgroups_bytes order table.now sets.old) }
{
    table_numbers::subgroups(order, table, sets)
}

#[unsafe(no_mangle)]
pub extern "C" fn symmetry_table_classes(order: u64, table: &[u8], sets: &mut [u8]) -> u64
    ensures { (result ≡ packed (table_answer (classes_answer order table.now sets.old)))
        × (sets.new ≡ classes_bytes order table.now sets.old) }
{
    table_numbers::classes(order, table, sets)
}

#[unsafe(no_mangle)]
pub extern "C" fn symmetry_table_conjugate(order: u64, table: &[u8], set: u64, element: u64) -> u64
    ensures { result ≡ packed (table_answer (conjugate_entry order table.now set element)) }
{
    table_numbers::conjugate(order, table, set, element)
}

#[unsafe(no_mangle)]
pub extern "C" fn symmetry_table_conjugates(
    order: u64,
    table: &[u8],
    set: u64,
    sets: &mut [u8],
    conjugators: &mut [u8],
) -> u64
    ensures { (result ≡ packed (table_answer (conjugates_entry order table.now set sets.old conjugators.old)))
        × (sets.new ≡ conjugates_list order table.now set sets.old conjugators.old)
        × (conjugators.new ≡ conjugators_list order table.now set sets.old conjugators.old) }
{
    table_numbers::conjugates(order, table, set, sets, conjugators)
}

#[unsafe(no_mangle)]
pub extern "C" fn symmetry_table_normalizer(order: u64, table: &[u8], set: u64) -> u64
    ensures { result ≡ packed (table_answer (normalizer_entry order table.now set)) }
{
    table_numbers::normalizer(order, table, set)
}

#[unsafe(no_mangle)]
pub extern "C" fn symmetry_table_permutation(
    order: u64,
    table: &[u8],
    set: u64,
    element: u64,
    positions: &mut [u8],
) -> u64
    ensures { (result ≡ packed (table_answer (permutation_entry order table.now set element positions.old)))
        × (positions.new ≡ permutation_list order table.now set element positions.old) }
{
    table_numbers::permutation(order, table, set, element, positions)
}
