// On a magnetic symbol's text.
ghost use Rattle.std.specs.Prelude.{◌≡◌};
ghost use Rattle.centering.specs.Letters.{byte_of};
ghost use Rattle.magnetic_group.specs.Symbols.{magnetic_outcome};
ghost use Rattle.magnetic_group.specs.Answers.{order_by, order_answer, letter_by, letter_answer, operation_by, operation_answer};
ghost use Rattle.answer_numbers.specs.Packing.{packed, mapped};
ghost use Rattle.magnetic_numbers.specs.FlaggedNumbers.{flagged_number};

#[unsafe(no_mangle)]
pub extern "C" fn symmetry_magnetic_order(text: &[u8]) -> u64
    ensures { result ≡ packed (order_answer (order_by (magnetic_outcome text.now))) }
{
    magnetic_numbers::symbol::order(text)
}

#[unsafe(no_mangle)]
pub extern "C" fn symmetry_magnetic_letter(text: &[u8]) -> u64
    ensures { result ≡ packed (mapped byte_of (letter_answer (letter_by (magnetic_outcome text.now)))) }
{
    magnetic_numbers::symbol::letter(text)
}

#[unsafe(no_mangle)]
pub extern "C" fn symmetry_magnetic_operation(text: &[u8], index: u64) -> u64
    ensures { result ≡ packed (mapped flagged_number (operation_answer (operation_by (magnetic_outcome text.now) index))) }
{
    magnetic_numbers::symbol::operation(text, index)
}
