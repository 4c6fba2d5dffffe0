// On a record's edition.
ghost use Rattle.std.specs.Prelude.{◌≡◌};
ghost use Rattle.record_writing.specs.Copying.{copy_answer, moved_of, moved_buffer_of};
ghost use Rattle.group_record.specs.Reading.{record_edition, read_of};
ghost use Rattle.answer_numbers.specs.Packing.{packed};

#[unsafe(no_mangle)]
pub extern "C" fn symmetry_record_edition(bytes: &[u8]) -> u64
    ensures { result ≡ packed (record_edition (read_of bytes.now)) }
{
    record_numbers::editions::edition(bytes)
}

#[unsafe(no_mangle)]
pub extern "C" fn symmetry_record_move(bytes: &[u8], out: &mut [u8], start: u64) -> u64
    ensures { (result ≡ packed (copy_answer (moved_of bytes.now out.old start)))
        × (out.new ≡ moved_buffer_of bytes.now out.old start) }
{
    record_numbers::editions::move_record(bytes, out, start)
}
