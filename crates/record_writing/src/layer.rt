// The record of a layer symbol: from the symbol's text to bytes under the small letter at a stated place of a lent buffer.
ghost use Rattle.std.specs.Prelude.{◌≡◌};
ghost use Rattle.record_writing.specs.LayerRecords.{layer_record_of, layer_buffer_of};

use super::writer::place_group;
use crate::Unwritten;
use group_record::{Edition, letter_byte};
use layer_group::{order, plain};

// The count of what was written; a refusal leaves out as it was. A layer symbol that has an order has the list of the text with the capital letter.
pub fn write_record(
    text: &[u8],
    out: &mut [u8],
    start: usize,
) -> Result<usize, Unwritten<layer_group::refusal::Refusal>>
    ensures { (result ≡ layer_record_of text.now out.old start) × (out.new ≡ layer_buffer_of text.now out.old start) }
{
    match order(text) {
        Err(refusal) => Err(Unwritten::Refused(refusal)),
        Ok(n) => {
            let group = plain(text);
            let c = group.centering;
            let operations = group.operations;
            let letter = letter_byte(true, c);
            if !place_group(out, start, Edition::First, letter, c, operations, n) {
                return Err(Unwritten::NoRoom);
            }
            Ok(n)
        }
    }
}
