// The program: reads Hall symbols from standard input, one a line, and writes for each its operations or its refusal. What is written and when is decided
// by functions with contracts, over any reader and writer: where the bytes of both are known, those that are written are the output for those that are read.
#![tactic(auto)]

mod answers;

ghost use Rattle.std.specs.Prelude.{◌≡◌, true, [], take, IfSome, IfOk};
ghost use Rattle.std.specs.Io.KnownBytes.{Appends, IsAtEnd};
ghost use Rattle.lines.specs.Feeding.{kept_behind, handed_over};
ghost use Rattle.lines.specs.Keeping.{held};
ghost use Rattle.lines.specs.declared.Kept.{Kept};
ghost use Rattle.hall.specs.Output.{texts_of, output_of};
ghost use Rattle.hall.specs.Answers.{Writable};
ghost use Rattle.hall.specs.Moved.{Moves, AllMoved};
ghost use Rattle.hall.specs.Steps.{Goes};

use answer_text::AnswerText;
use answers::{answer_next, last_text};
use lines::{Kept, fresh};
use std::io::{Read, Write};

// The line that goes on, after a part of the input was read and answered, at the end of the input, or where reading or writing failed.
#[derive(Clone, Copy)]
enum Step {
    More(Kept),
    End(Kept),
    Failed(Kept),
}

// Answers whether all of it was written.
fn write_text<R: Eprint, W: Write>(rt: &R, out: &mut W, answer: AnswerText) -> bool
    requires { Writable answer }
    ensures { result ≡ true → Appends (W.contents out.old) (W.contents out.new) (take answer.length answer.bytes) }
{
    let size = answer.length;
    let text = answer.bytes;
    if let Ok(()) = out.write_all(&text[..size]) {
        return true;
    }
    // Where that cannot be written either, nobody is left to tell.
    let _ = rt.eprintln("hall: the output cannot be written");
    false
}

// The line that goes on behind the piece; none where nothing can be written any more.
fn answer_piece<R: Eprint, W: Write>(rt: &R, out: &mut W, kept: Kept, piece: &[u8]) -> Option<Kept>
    ensures { IfSome result (λ (next : Kept). (held next ≡ kept_behind (held kept) piece.now)
        × Appends (W.contents out.old) (W.contents out.new) (texts_of (handed_over (held kept) piece.now))) }
{
    let mut line = kept;
    // A call says how many bytes it took, so this counts by hand.
    let mut from = 0usize;
    while from < piece.len() {
        let answered = answer_next(line, &piece[from..]);
        line = answered.kept;
        if !write_text(rt, out, answered.text) {
            return None;
        }
        from += answered.taken;
    }
    Some(line)
}

// A read that fails ends the input, as one that gives nothing does. Where nothing can be written any more, nothing more is read.
fn read_some<R: Eprint, I: Read, W: Write>(rt: &R, input: &mut I, out: &mut W, kept: Kept) -> Step
    ensures { Goes result (λ (next : Kept). Moves (I.remaining input.old) (I.remaining input.new) (W.contents out.old) (W.contents out.new) (held kept) (held next))
        (IsAtEnd (I.remaining input.new)) }
{
    let mut buffer = [0u8; 4096];
    let Ok(n) = input.read(&mut buffer) else {
        return Step::Failed(kept);
    };
    if n == 0 {
        return Step::End(kept);
    }
    match answer_piece(rt, out, kept, &buffer[..n]) {
        Some(next) => Step::More(next),
        None => Step::Failed(fresh()),
    }
}

// Reads and answers to the end; what is left is a last line that byte 10 does not end, also where not all was answered. A proved loop has to end, and nothing
// says that the input does: so its turns are counted, up to a number that no run uses up.
fn read_all<R: Eprint, I: Read, W: Write>(rt: &R, input: &mut I, out: &mut W) -> Result<Kept, Kept>
    ensures { IfOk result (λ (last : Kept). AllMoved (I.remaining input.old) (W.contents out.old) (W.contents out.new) (held last)) }
{
    let mut kept = fresh();
    for _ in 0..u64::MAX {
        match read_some(rt, input, out, kept) {
            Step::More(next) => kept = next,
            Step::End(last) => return Ok(last),
            Step::Failed(last) => return Err(last),
        }
    }
    Err(kept)
}

// Answers whether the whole input was read and its output written.
fn answer_all<R: Eprint, I: Read, W: Write>(rt: &R, input: &mut I, out: &mut W) -> bool
    ensures { result ≡ true → IfSome (I.remaining input.old) (λ text. Appends (W.contents out.old) (W.contents out.new) (output_of text)) }
{
    match read_all(rt, input, out) {
        Ok(last) => write_text(rt, out, last_text(last)),
        Err(last) => {
            write_text(rt, out, last_text(last));
            false
        }
    }
}

fn main(rt: HostRuntime) {
    let mut input = rt.stdin();
    let mut out = rt.stdout();
    answer_all(&rt, &mut input, &mut out);
}
