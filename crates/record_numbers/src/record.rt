// What is asked of a record.
ghost use Rattle.std.specs.Prelude.{◌≡◌, ◌+◌, ◌*◌};
ghost use Rattle.record_writing.specs.Copying.{copy_answer, copied_of, buffer_of};
ghost use Rattle.group_record.specs.Reading.{refusal_number, record_letter, record_order, read_of};
ghost use Rattle.answer_numbers.specs.Packing.{top_byte, packed};

use answer_numbers::refused;
use group_record::{Reading, Refusal, letter_byte};
use record_reading::reader::read_record;
use record_writing::Unwritten;

pub fn order(bytes: &[u8]) -> u64
    ensures { result ≡ packed (record_order (read_of bytes.now)) }
{
    let group = read_record(bytes);
    let answer = group.answer;
    match answer {
        Reading::Accepted => group.count as u64,
        Reading::Refused(why) => refused_record(why),
    }
}

pub fn letter(bytes: &[u8]) -> u64
    ensures { result ≡ packed (record_letter (read_of bytes.now)) }
{
    let group = read_record(bytes);
    let answer = group.answer;
    let layer = group.layer;
    let centering = group.centering;
    match answer {
        Reading::Accepted => letter_byte(layer, centering) as u64,
        Reading::Refused(why) => refused_record(why),
    }
}

pub fn copy_record(bytes: &[u8], out: &mut [u8], start: u64) -> u64
    ensures { (result ≡ packed (copy_answer (copied_of bytes.now out.old start)))
        × (out.new ≡ buffer_of bytes.now out.old start) }
{
    copied(record_writing::copier::copy_record(bytes, out, start as usize))
}

// What was read and written, or why not.
pub fn copied(answer: Result<usize, Unwritten<group_record::Refusal>>) -> u64
    ensures { result ≡ packed (copy_answer answer) }
{
    match answer {
        Ok(n) => n as u64,
        Err(Unwritten::NoRoom) => refused(20, 0),
        Err(Unwritten::Refused(why)) => refused_record(why),
    }
}

pub fn refused_record(why: Refusal) -> u64
    ensures { result ≡ refusal_number why * top_byte + 0 }
{
    refused(why.number(), 0)
}
