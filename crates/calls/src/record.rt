// On a record.
ghost use Rattle.std.specs.Prelude.{◌≡◌};
ghost use Rattle.record_writing.specs.Copying.{copy_answer, copied_of, buffer_of};
ghost use Rattle.group_record.specs.Reading.{record_letter, record_order, read_of};
ghost use Rattle.answer_numbers.specs.Packing.{packed};

#[unsafe(no_mangle)]
pub extern "C" fn symmetry_record_order(bytes: &[u8]) -> u64
    ensures { result ≡ packed (record_order (read_of bytes.now)) }
{
    record_numbers::record::order(bytes)
}

#[unsafe(no_mangle)]
pub extern "C" fn symmetry_record_letter(bytes: &[u8]) -> u64
    ensures { result ≡ packed (record_letter (read_of bytes.now)) }
{
    record_numbers::record::letter(bytes)
}

#[unsafe(no_mangle)]
pub extern "C" fn symmetry_record_copy(bytes: &[u8], out: &mut [u8], start: u64) -> u64
    ensures { (result ≡ packed (copy_answer (copied_of bytes.now out.old start)))
        × (out.new ≡ buffer_of bytes.now out.old start) }
{
    record_numbers::record::copy_record(bytes, out, start)
}
