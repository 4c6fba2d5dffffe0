// What is asked of the bytes of a table, and how the answer is handed on.
#![tactic(auto)]

ghost use Rattle.std.specs.Prelude.{◌≡◌};
ghost use Rattle.finite_group.specs.Answers.{table_answer, order_answer, identity_answer, subgroups_answer, subgroups_bytes, classes_answer, classes_bytes, conjugate_entry, normalizer_entry, permutation_entry, permutation_list, conjugates_entry, conjugates_list, conjugators_list};
ghost use Rattle.answer_numbers.specs.Packing.{packed};

use answer_numbers::refused;
use finite_group::number;
use table_check::Refusal;

pub fn order(order: u64, table: &[u8]) -> u64
    ensures { result ≡ packed (table_answer (order_answer order table.now)) }
{
    answered(finite_group::order(order as usize, table))
}

pub fn identity(order: u64, table: &[u8]) -> u64
    ensures { result ≡ packed (table_answer (identity_answer order table.now)) }
{
    answered(finite_group::identity(order as usize, table))
}

pub fn subgroups(order: u64, table: &[u8], sets: &mut [u8]) -> u64
    ensures { (result ≡ packed (table_answer (subgroups_answer order table.now sets.old)))
        × (sets.new ≡ subgroups_bytes order table.now sets.old) }
{
    answered(finite_group::enumerate_subgroups(order as usize, table, sets))
}

pub fn classes(order: u64, table: &[u8], sets: &mut [u8]) -> u64
    ensures { (result ≡ packed (table_answer (classes_answer order table.now sets.old)))
        × (sets.new ≡ classes_bytes order table.now sets.old) }
{
    answered(finite_group::conjugacy_classes(order as usize, table, sets))
}

pub fn conjugate(order: u64, table: &[u8], set: u64, element: u64) -> u64
    ensures { result ≡ packed (table_answer (conjugate_entry order table.now set element)) }
{
    answered(finite_group::conjugate(order as usize, table, set, element as usize))
}

pub fn conjugates(
    order: u64,
    table: &[u8],
    set: u64,
    sets: &mut [u8],
    conjugators: &mut [u8],
) -> u64
    ensures { (result ≡ packed (table_answer (conjugates_entry order table.now set sets.old conjugators.old)))
        × (sets.new ≡ conjugates_list order table.now set sets.old conjugators.old)
        × (conjugators.new ≡ conjugators_list order table.now set sets.old conjugators.old) }
{
    answered(finite_group::conjugates(order as usize, table, set, sets, conjugators))
}

pub fn normalizer(order: u64, table: &[u8], set: u64) -> u64
    ensures { result ≡ packed (table_answer (normalizer_entry order table.now set)) }
{
    answered(finite_group::normalizer(order as usize, table, set))
}

pub fn permutation(order: u64, table: &[u8], set: u64, element: u64, positions: &mut [u8]) -> u64
    ensures { (result ≡ packed (table_answer (permutation_entry order table.now set element positions.old)))
        × (positions.new ≡ permutation_list order table.now set element positions.old) }
{
    answered(finite_group::normalizer_action(
        order as usize,
        table,
        set,
        element as usize,
        positions,
    ))
}

fn answered(answer: Result<u64, Refusal>) -> u64
    ensures { result ≡ packed (table_answer answer) }
{
    match answer {
        Ok(value) => value,
        Err(refusal) => refused(number(refusal), 0),
    }
}
