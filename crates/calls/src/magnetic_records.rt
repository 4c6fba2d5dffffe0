// On a record of edition 2.
ghost use Rattle.std.specs.Prelude.{◌≡◌};
ghost use Rattle.record_writing.specs.Copying.{copy_answer};
ghost use Rattle.record_writing.specs.SymbolRecords.{symbol_record_answer};
ghost use Rattle.magnetic_record.specs.Answers.{reading_of, magnetic_order_answer, magnetic_letter_answer};
ghost use Rattle.magnetic_record.specs.Copying.{magnetic_copied_of, magnetic_copy_buffer};
ghost use Rattle.magnetic_record.specs.TextRecords.{magnetic_record_of, magnetic_buffer_of};
ghost use Rattle.answer_numbers.specs.Packing.{packed};

#[unsafe(no_mangle)]
pub extern "C" fn symmetry_magnetic_record(text: &[u8], out: &mut [u8], start: u64) -> u64
    ensures { (result ≡ packed (symbol_record_answer (magnetic_record_of text.now out.old start)))
        × (out.new ≡ magnetic_buffer_of text.now out.old start) }
{
    magnetic_numbers::record::write_record(text, out, start)
}

#[unsafe(no_mangle)]
pub extern "C" fn symmetry_magnetic_record_order(bytes: &[u8]) -> u64
    ensures { result ≡ packed (magnetic_order_answer (reading_of bytes.now)) }
{
    magnetic_numbers::record::order(bytes)
}

#[unsafe(no_mangle)]
pub extern "C" fn symmetry_magnetic_record_letter(bytes: &[u8]) -> u64
    ensures { result ≡ packed (magnetic_letter_answer (reading_of bytes.now)) }
{
    magnetic_numbers::record::letter(bytes)
}

#[unsafe(no_mangle)]
pub extern "C" fn symmetry_magnetic_record_copy(bytes: &[u8], out: &mut [u8], start: u64) -> u64
    ensures { (result ≡ packed (copy_answer (magnetic_copied_of bytes.now out.old start)))
        × (out.new ≡ magnetic_copy_buffer bytes.now out.old start) }
{
    magnetic_numbers::record::copy_record(bytes, out, start)
}
