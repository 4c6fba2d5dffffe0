// On an operation line, and the line of an operation.
ghost use Rattle.std.specs.Prelude.{◌≡◌, length};
ghost use Rattle.operation_line.specs.Answers.{answer_of};
ghost use Rattle.operation_line.specs.Reading.{read_line};
ghost use Rattle.operation_line.specs.Writing.{written_answer, write_of, buffer_of};
ghost use Rattle.answer_numbers.specs.Packing.{packed, mapped, operation_number};

#[unsafe(no_mangle)]
pub extern "C" fn symmetry_line_operation(line: &[u8]) -> u64
    ensures { result ≡ packed (mapped operation_number (answer_of (read_line line.now))) }
{
    line_numbers::read_line(line)
}

#[unsafe(no_mangle)]
pub extern "C" fn symmetry_operation_line(operation: &[u8], out: &mut [u8]) -> u64
    ensures { (result ≡ packed (written_answer (write_of operation.now (length out.old))))
        × (out.new ≡ buffer_of operation.now out.old) }
{
    line_numbers::write_line(operation, out)
}
