// On a symbol's text.
ghost use Rattle.std.specs.Prelude.{◌≡◌};
ghost use Rattle.centering.specs.Letters.{byte_of};
ghost use Rattle.symbol_group.specs.Answers.{symbol_answer, order_of, order_answer, operation_at, operation_answer};
ghost use Rattle.record_writing.specs.SymbolRecords.{symbol_record_answer, symbol_record_of, symbol_buffer_of};
ghost use Rattle.symbol_numbers.specs.Answers.{letter_answer};
ghost use Rattle.answer_numbers.specs.Packing.{packed, mapped, operation_number};

#[unsafe(no_mangle)]
pub extern "C" fn symmetry_symbol_order(text: &[u8]) -> u64
    ensures { result ≡ packed (order_answer (order_of text.now)) }
{
    symbol_numbers::symbol::order(text)
}

#[unsafe(no_mangle)]
pub extern "C" fn symmetry_symbol_letter(text: &[u8]) -> u64
    ensures { result ≡ packed (mapped byte_of (letter_answer (symbol_answer text.now))) }
{
    symbol_numbers::symbol::letter(text)
}

#[unsafe(no_mangle)]
pub extern "C" fn symmetry_symbol_operation(text: &[u8], index: u64) -> u64
    ensures { result ≡ packed (mapped operation_number (operation_answer (operation_at text.now index))) }
{
    symbol_numbers::symbol::operation(text, index)
}

#[unsafe(no_mangle)]
pub extern "C" fn symmetry_symbol_record(text: &[u8], out: &mut [u8], start: u64) -> u64
    ensures { (result ≡ packed (symbol_record_answer (symbol_record_of text.now out.old start)))
        × (out.new ≡ symbol_buffer_of text.now out.old start) }
{
    symbol_numbers::symbol::write_record(text, out, start)
}
