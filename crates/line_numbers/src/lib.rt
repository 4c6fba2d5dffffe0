// What is asked of an operation line, and the line of an operation.
#![tactic(auto)]

ghost use Rattle.std.specs.Prelude.{◌≡◌, length};
ghost use Rattle.operation_line.specs.Answers.{answer_of};
ghost use Rattle.operation_line.specs.Reading.{read_line};
ghost use Rattle.operation_line.specs.Writing.{written_answer, write_of, buffer_of};
ghost use Rattle.answer_numbers.specs.Packing.{packed, mapped, operation_number};

use answer_numbers::{operation_number, refused};
use operation_line::{ReadingRefusal, WritingRefusal};

pub fn read_line(line: &[u8]) -> u64
    ensures { result ≡ packed (mapped operation_number (answer_of (read_line line.now))) }
{
    match operation_line::reader::read_line(line) {
        Ok(o) => operation_number(o),
        Err(ReadingRefusal::TooLong) => refused(40, 0),
        Err(ReadingRefusal::Misspelt(place)) => refused(41, place),
        Err(ReadingRefusal::Determinant) => refused(42, 0),
    }
}

pub fn write_line(operation: &[u8], out: &mut [u8]) -> u64
    ensures { (result ≡ packed (written_answer (write_of operation.now (length out.old))))
        × (out.new ≡ buffer_of operation.now out.old) }
{
    match line_writing::write_line(operation, out) {
        Ok(n) => n as u64,
        Err(WritingRefusal::NoOperation) => refused(34, 0),
        Err(WritingRefusal::Determinant) => refused(42, 0),
        Err(WritingRefusal::NoRoom) => refused(20, 0),
    }
}
