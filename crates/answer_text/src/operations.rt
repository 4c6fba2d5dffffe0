// The lines of a record's operations, from their bytes.
ghost use Rattle.std.specs.Prelude.{◌≡◌, ◌+◌, ◌*◌, ◌≤◌, length};
ghost use Rattle.group_record.specs.Items.{bytes_of};
ghost use Rattle.group_record.specs.OneRecord.{operation_in};
ghost use Rattle.answer_text.specs.Text.{operation_line};
ghost use Rattle.answer_text.specs.Lines.{Plain, row_words};
ghost use Rattle.answer_text.specs.RecordLines.{AllPlain, operations_in};
ghost use Rattle.answer_text.specs.Growing.{Behind};

use super::AnswerText;
use group_record::items::{Item, operation_of_item};
use operation::{Operation, Translation};

impl AnswerText {
    // Three entries, each with a space behind it.
    fn put_row(&mut self, first: u8, second: u8, third: u8)
        requires { (first ≤ 2) × (second ≤ 2) × (third ≤ 2) × (self.old.length + 9 ≤ 1814) }
        ensures { Behind self.old (row_words first second third) self.new }
    {
        self.put_entry(first);
        self.put_entry(second);
        self.put_entry(third);
    }

    // One operation's line.
    fn put_operation(&mut self, f: Operation)
        requires { Plain f × (self.old.length + 36 ≤ 1814) }
        ensures { Behind self.old (operation_line f) self.new }
    {
        let r = f.rotation;
        let t = f.translation;
        self.put_row(r.xx, r.xy, r.xz);
        self.put_row(r.yx, r.yy, r.yz);
        self.put_row(r.zx, r.zy, r.zz);
        self.put_number(t.x as usize, b' ');
        self.put_number(t.y as usize, b' ');
        self.put_number(t.z as usize, b'\n');
    }

    // A line for each of the first n operations of a record.
    pub(crate) fn put_operations(&mut self, bytes: &[u8], n: usize)
        requires { (n ≤ 48) × (5 * n ≤ length bytes.now) × AllPlain n bytes.now × (self.old.length + 36 * n ≤ 1814) }
        ensures { Behind self.old (bytes_of operation_line (operations_in n bytes.now)) self.new }
    {
        for i in 0..n {
            self.put_operation(operation_in(&bytes[5 * i..]));
        }
    }
}

// The operation of the first five bytes.
fn operation_in(bytes: &[u8]) -> Operation
    requires { 5 ≤ length bytes.now }
    ensures { result ≡ operation_in bytes.now }
{
    operation_of_item(Item {
        code: bytes[0] as u32 * 256 + bytes[1] as u32,
        translation: Translation {
            x: bytes[2],
            y: bytes[3],
            z: bytes[4],
        },
    })
}
