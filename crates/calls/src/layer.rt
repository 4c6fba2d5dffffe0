// On a layer symbol's text.
ghost use Rattle.std.specs.Prelude.{◌≡◌};
ghost use Rattle.layer_group.specs.Answers.{order_of, order_answer, letter_of, letter_answer, operation_at, operation_answer};
ghost use Rattle.record_writing.specs.LayerRecords.{layer_record_answer, layer_record_of, layer_buffer_of};
ghost use Rattle.answer_numbers.specs.Packing.{packed, mapped, operation_number};

#[unsafe(no_mangle)]
pub extern "C" fn symmetry_layer_order(text: &[u8]) -> u64
    ensures { result ≡ packed (order_answer (order_of text.now)) }
{
    symbol_numbers::layer::order(text)
}

#[unsafe(no_mangle)]
pub extern "C" fn symmetry_layer_letter(text: &[u8]) -> u64
    ensures { result ≡ packed (letter_answer (letter_of text.now)) }
{
    symbol_numbers::layer::letter(text)
}

#[unsafe(no_mangle)]
pub extern "C" fn symmetry_layer_operation(text: &[u8], index: u64) -> u64
    ensures { result ≡ packed (mapped operation_number (operation_answer (operation_at text.now index))) }
{
    symbol_numbers::layer::operation(text, index)
}

#[unsafe(no_mangle)]
pub extern "C" fn symmetry_layer_record(text: &[u8], out: &mut [u8], start: u64) -> u64
    ensures { (result ≡ packed (layer_record_answer (layer_record_of text.now out.old start)))
        × (out.new ≡ layer_buffer_of text.now out.old start) }
{
    symbol_numbers::layer::write_record(text, out, start)
}
