// What is asked of a catalogue that comes in pieces. C lends 81 bytes for what it is between two calls: its status, and the bytes that are kept.
#![tactic(auto)]

ghost use Rattle.std.specs.Prelude.{◌≡◌, ◌≤◌, length};
ghost use Rattle.record_writing.specs.SymbolRecords.{symbol_record_answer};
ghost use Rattle.catalogue.specs.Answers.{line, catalogue_answer};
ghost use Rattle.catalogue_numbers.specs.CatalogueBounds.{Short, Tellable};
ghost use Rattle.catalogue_numbers.specs.Catalogues.{catalogue_in, put_back, said_number, step_number, step_of, room_of, step_answer, step_state, step_out, start_answer, start_state, piece_answer, piece_state, piece_out, end_answer, end_state, end_out};
ghost use Rattle.answer_numbers.specs.Packing.{packed, mapped};

use answer_numbers::refused;
use catalogue::{Catalogue, Progress, Refusal, Step};
use record_writing::Unwritten;

pub fn start(state: &mut [u8]) -> u64
    ensures { (result ≡ packed (start_answer state.old)) × (state.new ≡ start_state state.old) }
{
    if state.len() < 81 {
        return refused(20, 0);
    }
    state[0] = 0;
    0
}

pub fn piece(state: &mut [u8], piece: &[u8], out: &mut [u8]) -> u64
    ensures { (result ≡ packed (piece_answer state.old piece.now out.old))
        × (state.new ≡ piece_state state.old piece.now out.old)
        × (out.new ≡ piece_out state.old piece.now out.old) }
{
    stepped(state, piece, out, false)
}

pub fn end(state: &mut [u8], out: &mut [u8]) -> u64
    ensures { (result ≡ packed (end_answer state.old out.old))
        × (state.new ≡ end_state state.old out.old)
        × (out.new ≡ end_out state.old out.old) }
{
    let nothing = [0u8; 1];
    stepped(state, &nothing, out, true)
}

// A piece or the end, in one function, so that the code around a step stands once. The end takes nothing of a piece.
fn stepped(state: &mut [u8], piece: &[u8], out: &mut [u8], ends: bool) -> u64
    ensures { (result ≡ packed (step_answer ends state.old piece.now out.old))
        × (state.new ≡ step_state ends state.old piece.now out.old)
        × (out.new ≡ step_out ends state.old piece.now out.old) }
{
    if state.len() < 81 {
        return refused(20, 0);
    }
    let before = catalogue_in(state);
    let step = taken(before, piece, out, ends);
    let answer = step.answer;
    let behind = step.catalogue;
    put_back(state, behind);
    answered(answer)
}

fn taken(before: Catalogue, piece: &[u8], out: &mut [u8], ends: bool) -> Step
    ensures { (result ≡ step_of ends before piece.now out.old)
        × (out.new ≡ room_of ends before piece.now out.old) }
{
    if ends {
        return before.end(out);
    }
    before.piece(piece, out)
}

fn catalogue_in(state: &[u8]) -> Catalogue
    requires { 81 ≤ length state.now }
    ensures { result ≡ catalogue_in state.now }
{
    let mut bytes = [0u8; 80];
    let mut i = 0usize;
    while i < 80 {
        bytes[i] = state[i + 1];
        i += 1;
    }
    let status = state[0];
    Catalogue { status, bytes }
}

fn put_back(state: &mut [u8], catalogue: Catalogue)
    requires { 81 ≤ length state.old }
    ensures { state.new ≡ put_back catalogue state.old }
{
    let bytes = catalogue.bytes;
    state[0] = catalogue.status;
    let mut i = 0usize;
    while i < 80 {
        state[i + 1] = bytes[i];
        i += 1;
    }
}

// The bytes that were taken, and above them what is said of the line.
fn answered(answer: Result<Progress, Refusal>) -> u64
    requires { Tellable answer }
    ensures { result ≡ packed (mapped step_number (catalogue_answer answer)) }
{
    match answer {
        Ok(Progress::NoLine(taken)) => taken as u64,
        Ok(Progress::Told(taken, written)) => taken as u64 + 65536 * said(written),
        Err(Refusal::LongPiece) => refused(45, 0),
        Err(Refusal::AfterEnd) => refused(46, 0),
    }
}

fn said(written: Result<usize, Unwritten<symbol_group::refusal::Refusal>>) -> u64
    requires { Short (line (symbol_record_answer written)) }
    ensures { result ≡ said_number (line (symbol_record_answer written)) }
{
    match written {
        Ok(n) => n as u64 + 1,
        Err(Unwritten::NoRoom) => 5121,
        Err(Unwritten::Refused(refusal)) => {
            (refusal.number() as u64) * 256 + refusal.place() as u64 + 1
        }
    }
}
