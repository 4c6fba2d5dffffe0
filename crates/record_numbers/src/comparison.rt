// What is asked of two records.
ghost use Rattle.std.specs.Prelude.{◌≡◌, length};
ghost use Rattle.record_report.specs.Compared.{compared_answer, compared_of, buffer_of};
ghost use Rattle.record_numbers.specs.ComparisonBounds.{Tellable};
ghost use Rattle.answer_numbers.specs.Packing.{packed};

use answer_numbers::refused;
use record_report::Incomparable;

pub fn compare_records(first: &[u8], second: &[u8], out: &mut [u8]) -> u64
    ensures { (result ≡ packed (compared_answer (compared_of first.now second.now (length out.old))))
        × (out.new ≡ buffer_of first.now second.now out.old) }
{
    packed_answer(record_report::compare_records(first, second, out))
}

// The second record's refusals are the first's plus 30.
fn packed_answer(compared: Result<usize, Incomparable>) -> u64
    requires { Tellable compared }
    ensures { result ≡ packed (compared_answer compared) }
{
    match compared {
        Ok(size) => size as u64,
        Err(Incomparable::First(why)) => refused(why.number(), 0),
        Err(Incomparable::Second(why)) => refused(why.number() + 30, 0),
        Err(Incomparable::NoRoom) => refused(20, 0),
    }
}
