// Words written behind a text.
ghost use Rattle.std.specs.Prelude.{[], ◌∷◌, ◌++◌, ◌+◌, ◌≤◌, ◌<◌, length};
ghost use Rattle.operation.specs.Meaning.{entry_of};
ghost use Rattle.answer_text.specs.Words.{space, decimal, signed};
ghost use Rattle.answer_text.specs.Growing.{Behind};

use super::AnswerText;

impl AnswerText {
    pub(crate) fn put_bytes(&mut self, bytes: &[u8])
        requires { self.old.length + length bytes.now ≤ 1814 }
        ensures { Behind self.old bytes.now self.new }
    {
        let end = self.length + bytes.len();
        self.bytes[self.length..end].copy_from_slice(bytes);
        self.length = end;
    }

    // A number and the byte behind it.
    pub(crate) fn put_number(&mut self, n: usize, end: u8)
        requires { (n < 100) × (self.old.length + 3 ≤ 1814) }
        ensures { Behind self.old (decimal n ++ (end ∷ [])) self.new }
    {
        if n < 10 {
            self.put_bytes(&[b'0' + n as u8, end]);
        } else {
            self.put_bytes(&[b'0' + (n / 10) as u8, b'0' + (n % 10) as u8, end]);
        }
    }

    // A matrix entry, given by its digit, and a space.
    pub(crate) fn put_entry(&mut self, digit: u8)
        requires { (digit ≤ 2) × (self.old.length + 3 ≤ 1814) }
        ensures { Behind self.old (signed (entry_of digit) ++ (space ∷ [])) self.new }
    {
        match digit {
            0 => self.put_bytes(b"-1 "),
            1 => self.put_bytes(b"0 "),
            _ => self.put_bytes(b"1 "),
        }
    }
}
