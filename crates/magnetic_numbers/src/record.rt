// The record of a magnetic symbol, edition 2, and what is asked of a buffer that ends with one.
ghost use Rattle.std.specs.Prelude.{◌≡◌};
ghost use Rattle.record_writing.specs.Copying.{copy_answer};
ghost use Rattle.record_writing.specs.SymbolRecords.{symbol_record_answer};
ghost use Rattle.magnetic_record.specs.Answers.{reading_of, magnetic_order_answer, magnetic_letter_answer};
ghost use Rattle.magnetic_record.specs.Copying.{magnetic_copied_of, magnetic_copy_buffer};
ghost use Rattle.magnetic_record.specs.TextRecords.{magnetic_record_of, magnetic_buffer_of};
ghost use Rattle.answer_numbers.specs.Packing.{packed};

use magnetic_record_reading::reader::read_record;
use record_numbers::record::{copied, refused_record};
use symbol_numbers::symbol::written;

pub fn write_record(text: &[u8], out: &mut [u8], start: u64) -> u64
    ensures { (result ≡ packed (symbol_record_answer (magnetic_record_of text.now out.old start)))
        × (out.new ≡ magnetic_buffer_of text.now out.old start) }
{
    written(magnetic_record_writing::symbol::write_record(text, out, start as usize))
}

pub fn order(bytes: &[u8]) -> u64
    ensures { result ≡ packed (magnetic_order_answer (reading_of bytes.now)) }
{
    match read_record(bytes) {
        Ok((_, n)) => n as u64,
        Err(why) => refused_record(why),
    }
}

pub fn letter(bytes: &[u8]) -> u64
    ensures { result ≡ packed (magnetic_letter_answer (reading_of bytes.now)) }
{
    match read_record(bytes) {
        Ok((centering, _)) => centering.byte() as u64,
        Err(why) => refused_record(why),
    }
}

pub fn copy_record(bytes: &[u8], out: &mut [u8], start: u64) -> u64
    ensures { (result ≡ packed (copy_answer (magnetic_copied_of bytes.now out.old start)))
        × (out.new ≡ magnetic_copy_buffer bytes.now out.old start) }
{
    copied(magnetic_record_writing::copier::copy_record(bytes, out, start as usize))
}
