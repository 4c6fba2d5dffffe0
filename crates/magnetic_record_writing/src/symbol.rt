// The record of a magnetic symbol: from the symbol's text to bytes at a stated place of a lent buffer.
ghost use Rattle.std.specs.Prelude.{◌≡◌};
ghost use Rattle.magnetic_record.specs.TextRecords.{magnetic_record_of, magnetic_buffer_of};

use super::writer::place_group;
use magnetic_group::{Answer, list};
use record_writing::Unwritten;

// The count of what was written; a refusal leaves out as it was.
pub fn write_record(
    text: &[u8],
    out: &mut [u8],
    start: usize,
) -> Result<usize, Unwritten<symbol_group::refusal::Refusal>>
    ensures { (result ≡ magnetic_record_of text.now out.old start)
        × (out.new ≡ magnetic_buffer_of text.now out.old start) }
{
    let mut numbers = [0u64; 96];
    let group = list(text, &mut numbers);
    match group.answer {
        Answer::Refused(refusal) => Err(Unwritten::Refused(refusal)),
        Answer::Group => {
            let n = group.count;
            if !place_group(out, start, group.centering, &numbers[..n]) {
                return Err(Unwritten::NoRoom);
            }
            Ok(n)
        }
    }
}
