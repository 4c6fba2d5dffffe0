// The record of a symbol: from the symbol's text to bytes at a stated place of a lent buffer.
ghost use Rattle.std.specs.Prelude.{◌≡◌};
ghost use Rattle.record_writing.specs.SymbolRecords.{symbol_record_of, symbol_buffer_of};

use super::writer::place_group;
use crate::Unwritten;
use group_record::Edition;
use symbol_group::{Answer, SymbolGroup};

// The count of what was written; a refusal leaves out as it was.
pub fn write_record(
    text: &[u8],
    out: &mut [u8],
    start: usize,
) -> Result<usize, Unwritten<symbol_group::refusal::Refusal>>
    ensures { (result ≡ symbol_record_of text.now out.old start) × (out.new ≡ symbol_buffer_of text.now out.old start) }
{
    let group = SymbolGroup::new(text);
    let answer = group.answer;
    match answer {
        Answer::Refused(refusal) => Err(Unwritten::Refused(refusal)),
        Answer::Group => {
            let n = group.count;
            let c = group.centering;
            let operations = group.operations;
            let letter = c.byte();
            if !place_group(out, start, Edition::First, letter, c, operations, n) {
                return Err(Unwritten::NoRoom);
            }
            Ok(n)
        }
    }
}
