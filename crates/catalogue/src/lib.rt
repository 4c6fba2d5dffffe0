// Catalogues of Hall symbols, one a line, that come in pieces cut anywhere: each call takes the bytes up to the end of one line, and writes the record of
// the symbol that stands there. New in the port: the Rust reads no catalogues.
#![tactic(auto)]

ghost use Rattle.std.specs.Prelude.{◌≡◌, cond, ◌≤◌, take, replicate};
ghost use Rattle.record_writing.specs.SymbolRecords.{symbol_record_of, symbol_buffer_of};
ghost use Rattle.catalogue.specs.Answers.{fresh, piece_step, piece_room, end_step, end_room};

use lines::{Kept, Line, last_line, take_line};
use record_writing::Unwritten;
use record_writing::symbol::write_record;

// What a catalogue is after the bytes that were taken of it: `status` bytes of a line that goes on are kept; 81 says that it has over 80, of which 80 are kept;
// 82 and above, that the end was announced.
#[derive(Clone, Copy)]
pub struct Catalogue {
    pub status: u8,
    pub bytes: [u8; 80],
}

// What a call made of a catalogue. So many bytes were taken, and none of them ended a line; or the last of them did, and this is what was answered for it, its
// record in the lent room.
#[derive(Clone, Copy)]
pub enum Progress {
    NoLine(usize),
    Told(usize, Result<usize, Unwritten<symbol_group::refusal::Refusal>>),
}

// Why nothing is taken: `LongPiece` is refusal 45 and `AfterEnd` 46, at place 0.
#[derive(Clone, Copy)]
pub enum Refusal {
    LongPiece,
    AfterEnd,
}

#[derive(Clone, Copy)]
pub struct Step {
    pub answer: Result<Progress, Refusal>,
    pub catalogue: Catalogue,
}

impl Catalogue {
    pub fn new() -> Catalogue
        ensures { result ≡ fresh (replicate 80 0) }
    {
        Catalogue {
            status: 0,
            bytes: [0; 80],
        }
    }

    // The bytes up to the first byte 10, with it, or all.
    pub fn piece(self, piece: &[u8], out: &mut [u8]) -> Step
        ensures { (result ≡ piece_step self piece.now out.old) × (out.new ≡ piece_room self piece.now out.old) }
    {
        let status = self.status;
        let bytes = self.bytes;
        if 4096 < piece.len() {
            return Step {
                answer: Err(Refusal::LongPiece),
                catalogue: self,
            };
        }
        if 81 < status {
            return Step {
                answer: Err(Refusal::AfterEnd),
                catalogue: self,
            };
        }
        let part = take_line(Kept { status, bytes }, piece);
        let line = part.line;
        let answer = told(part.finished, part.taken, line, out);
        let kept = part.kept;
        Step {
            answer,
            catalogue: going_on(kept),
        }
    }

    // A last line that byte 10 does not end counts unless it holds no byte.
    pub fn end(self, out: &mut [u8]) -> Step
        ensures { (result ≡ end_step self out.old) × (out.new ≡ end_room self out.old) }
    {
        let status = self.status;
        let bytes = self.bytes;
        if 81 < status {
            return Step {
                answer: Err(Refusal::AfterEnd),
                catalogue: self,
            };
        }
        let last = last_line(Kept { status, bytes });
        let line = last.line;
        let answer = told(last.finished, 0, line, out);
        Step {
            answer,
            catalogue: Catalogue { status: 82, bytes },
        }
    }
}

fn going_on(kept: Kept) -> Catalogue
    ensures { result ≡ record { status = kept.status; bytes = kept.bytes } }
{
    let bytes = kept.bytes;
    Catalogue {
        status: kept.status,
        bytes,
    }
}

// A finished line is answered by the writing of its record from the start of the room.
fn told(finished: bool, taken: usize, line: Line, out: &mut [u8]) -> Result<Progress, Refusal>
    requires { line.length ≤ 81 }
    ensures { (result ≡ cond finished (Ok (Progress.Told taken (symbol_record_of (take line.length line.bytes) out.old 0))) (Ok (Progress.NoLine taken))) × (out.new ≡ cond finished (symbol_buffer_of (take line.length line.bytes) out.old 0) out.old) }
{
    if !finished {
        return Ok(Progress::NoLine(taken));
    }
    let n = line.length;
    let bytes = line.bytes;
    Ok(Progress::Told(taken, write_record(&bytes[..n], out, 0)))
}
