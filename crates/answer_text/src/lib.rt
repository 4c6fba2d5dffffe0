// The text that the program writes for one line. New in the port: the Rust has no such program.
#![tactic(auto)]

mod operations;
mod placing;

ghost use Rattle.std.specs.Prelude.{◌≡◌, [], ◌∷◌, ◌++◌, ◌+◌, ◌*◌, ◌≤◌, ◌<◌, length, get_or, take};
ghost use Rattle.symbol_group.specs.Refusals.{number_of, place_of};
ghost use Rattle.group_record.specs.Items.{bytes_of};
ghost use Rattle.answer_text.specs.Words.{newline, decimal, line_of};
ghost use Rattle.answer_text.specs.Text.{operation_line, refusal_text, answer_of, text_answer};
ghost use Rattle.answer_text.specs.RecordLines.{AllPlain, operations_in};
ghost use Rattle.answer_text.specs.Growing.{Behind};

use record_writing::Unwritten;
use record_writing::symbol::write_record;
use symbol_group::refusal::Refusal;

// The first `length` bytes are the text, the others 0. A symbol of 80 bytes and its newline, a letter and a count with theirs, and 48 lines of at most
// 36 bytes fit.
#[derive(Clone, Copy)]
pub struct AnswerText {
    pub length: usize,
    pub bytes: [u8; 1814],
}

pub fn answer_text(line: &[u8]) -> AnswerText
    ensures { result ≡ text_answer line.now }
{
    let mut text = AnswerText {
        length: 0,
        bytes: [0; 1814],
    };
    text.put_symbol(line);
    text.put_answer(line);
    text
}

impl AnswerText {
    // The symbol on a line of its own, at most 80 bytes of it.
    fn put_symbol(&mut self, line: &[u8])
        requires { self.old.length + 81 ≤ 1814 }
        ensures { Behind self.old (take 80 line.now ++ (newline ∷ [])) self.new }
    {
        self.put_bytes(&line[..line.len().min(80)]);
        self.put_bytes(b"\n");
    }

    // The record is written aside, and its operations are read off it.
    fn put_answer(&mut self, line: &[u8])
        requires { self.old.length + 1733 ≤ 1814 }
        ensures { Behind self.old (answer_of line.now) self.new }
    {
        let mut bytes = [0u8; 245];
        match write_record(line, &mut bytes, 0) {
            Ok(n) => self.put_group(&bytes, n),
            Err(Unwritten::Refused(refusal)) => self.put_refusal(refusal),
            Err(Unwritten::NoRoom) => (),
        }
    }

    // Letter, count and operations of a record that holds n of them.
    fn put_group(&mut self, bytes: &[u8], n: usize)
        requires { (n ≤ 48) × (5 * n < length bytes.now) × AllPlain n bytes.now × (self.old.length + 1733 ≤ 1814) }
        ensures { Behind self.old (line_of ((get_or bytes.now (5 * n) 0 ∷ []) ∷ decimal n ∷ []) ++ bytes_of operation_line (operations_in n bytes.now)) self.new }
    {
        self.put_bytes(&[bytes[5 * n], b' ']);
        self.put_number(n, b'\n');
        self.put_operations(bytes, n);
    }

    fn put_refusal(&mut self, refusal: Refusal)
        requires { (number_of refusal < 100) × (place_of refusal < 100) × (self.old.length + 14 ≤ 1814) }
        ensures { Behind self.old (refusal_text refusal) self.new }
    {
        self.put_bytes(b"refused ");
        self.put_number(refusal.number() as usize, b' ');
        self.put_number(refusal.place(), b'\n');
    }
}
