// Records of one edition and of the other: which one a record is of, and moving it to the other.
ghost use Rattle.std.specs.Prelude.{◌≡◌};
ghost use Rattle.record_writing.specs.Copying.{copy_answer, moved_of, moved_buffer_of};
ghost use Rattle.group_record.specs.Reading.{record_edition, read_of};
ghost use Rattle.answer_numbers.specs.Packing.{packed};

use super::record::{copied, refused_record};
use group_record::Reading;
use record_reading::reader::read_record;

pub fn edition(bytes: &[u8]) -> u64
    ensures { result ≡ packed (record_edition (read_of bytes.now)) }
{
    let group = read_record(bytes);
    let answer = group.answer;
    let edition = group.edition;
    match answer {
        Reading::Accepted => edition.number() as u64,
        Reading::Refused(why) => refused_record(why),
    }
}

pub fn move_record(bytes: &[u8], out: &mut [u8], start: u64) -> u64
    ensures { (result ≡ packed (copy_answer (moved_of bytes.now out.old start)))
        × (out.new ≡ moved_buffer_of bytes.now out.old start) }
{
    copied(record_writing::copier::move_record(bytes, out, start as usize))
}
