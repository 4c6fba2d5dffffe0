// On two records.
ghost use Rattle.std.specs.Prelude.{◌≡◌, length};
ghost use Rattle.record_report.specs.Compared.{compared_answer, compared_of, buffer_of};
ghost use Rattle.answer_numbers.specs.Packing.{packed};

#[unsafe(no_mangle)]
pub extern "C" fn symmetry_record_compare(first: &[u8], second: &[u8], out: &mut [u8]) -> u64
    ensures { (result ≡ packed (compared_answer (compared_of first.now second.now (length out.old))))
        × (out.new ≡ buffer_of first.now second.now out.old) }
{
    record_numbers::comparison::compare_records(first, second, out)
}
