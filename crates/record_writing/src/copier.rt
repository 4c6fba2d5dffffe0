// What is read from one buffer, written at a stated place of another: a copy in its own edition, or moved to the other edition.
ghost use Rattle.std.specs.Prelude.{◌≡◌, true, false, length};
ghost use Rattle.record_writing.specs.Places.{placed_in};
ghost use Rattle.record_writing.specs.Copying.{chosen_edition, copied_by, group_bytes, written_as, copied_of, moved_of, buffer_as, buffer_of, moved_buffer_of};
ghost use Rattle.record_writing.specs.RoundTrips.{Writable};
ghost use Rattle.group_record.specs.declared.Reading.TheVariants.{Accepted};

use super::writer::place_group;
use crate::Unwritten;
use group_record::{Edition, Reading, RecordGroup, letter_byte};
use record_reading::reader::read_record;

// The count of what was read and written; a refusal leaves out as it was.
pub fn copy_record(
    bytes: &[u8],
    out: &mut [u8],
    start: usize,
) -> Result<usize, Unwritten<group_record::Refusal>>
    ensures { (result ≡ copied_of bytes.now out.old start) × (out.new ≡ buffer_of bytes.now out.old start) }
{
    write_read(bytes, out, start, false)
}

// The same in the other edition.
pub fn move_record(
    bytes: &[u8],
    out: &mut [u8],
    start: usize,
) -> Result<usize, Unwritten<group_record::Refusal>>
    ensures { (result ≡ moved_of bytes.now out.old start) × (out.new ≡ moved_buffer_of bytes.now out.old start) }
{
    write_read(bytes, out, start, true)
}

fn write_read(
    bytes: &[u8],
    out: &mut [u8],
    start: usize,
    moved: bool,
) -> Result<usize, Unwritten<group_record::Refusal>>
    ensures { (result ≡ written_as moved bytes.now out.old start) × (out.new ≡ buffer_as moved bytes.now out.old start) }
{
    let group = read_record(bytes);
    match group.answer {
        Reading::Accepted => place_read(out, start, chosen(group.edition, moved), group),
        Reading::Refused(why) => Err(Unwritten::Refused(why)),
    }
}

fn chosen(edition: Edition, moved: bool) -> Edition
    ensures { result ≡ chosen_edition moved edition }
{
    if moved { edition.other() } else { edition }
}

fn place_read(
    out: &mut [u8],
    start: usize,
    edition: Edition,
    group: RecordGroup,
) -> Result<usize, Unwritten<group_record::Refusal>>
    requires { Writable group }
    ensures { (result ≡ copied_by Accepted edition group.count start (length out.old)) × (out.new ≡ placed_in out.old start (group_bytes edition group)) }
{
    let n = group.count;
    let letter = letter_byte(group.layer, group.centering);
    if !place_group(
        out,
        start,
        edition,
        letter,
        group.centering,
        group.operations,
        n,
    ) {
        return Err(Unwritten::NoRoom);
    }
    Ok(n)
}
