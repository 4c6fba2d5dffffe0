// The texts that are to be written: of a line that has ended, and of the last line.
ghost use Rattle.std.specs.Prelude.{◌≡◌, cond, [], ◌∷◌, ◌≤◌, take};
ghost use Rattle.answer_text.specs.Text.{text_answer};
ghost use Rattle.lines.specs.Lines.{last_line};
ghost use Rattle.lines.specs.Keeping.{held};
ghost use Rattle.hall.specs.Answers.{in_room, texts_in_room, answered_from};

use answer_text::{AnswerText, answer_text};
use lines::{Kept, Line, last_line, take_line};

// What is to be written after the bytes that were taken of a piece, and the line that goes on.
#[derive(Clone, Copy)]
pub struct Answered {
    pub text: AnswerText,
    pub kept: Kept,
    pub taken: usize,
}

fn no_text() -> AnswerText
    ensures { result ≡ in_room [] }
{
    AnswerText {
        length: 0,
        bytes: [0; 1814],
    }
}

fn line_text(line: Line) -> AnswerText
    requires { line.length ≤ 81 }
    ensures { result ≡ text_answer (take line.length line.bytes) }
{
    let n = line.length;
    let bytes = line.bytes;
    answer_text(&bytes[..n])
}

// A line is answered when it has ended.
fn text_of(finished: bool, line: Line) -> AnswerText
    requires { line.length ≤ 81 }
    ensures { result ≡ texts_in_room (cond finished (take line.length line.bytes ∷ []) []) }
{
    if !finished {
        return no_text();
    }
    line_text(line)
}

pub(crate) fn answer_next(kept: Kept, piece: &[u8]) -> Answered
    ensures { result ≡ answered_from kept piece.now }
{
    let part = take_line(kept, piece);
    let line = part.line;
    let text = text_of(part.finished, line);
    let kept = part.kept;
    Answered {
        text,
        kept,
        taken: part.taken,
    }
}

pub(crate) fn last_text(kept: Kept) -> AnswerText
    ensures { result ≡ texts_in_room (last_line (held kept)) }
{
    let last = last_line(kept);
    let line = last.line;
    text_of(last.finished, line)
}
