// What is read from one buffer, written at a stated place of another: the bytes of the record themselves.
ghost use Rattle.std.specs.Prelude.{◌≡◌, ◌++◌, ◌≤◌, length, drop};
ghost use Rattle.record_writing.specs.Places.{room_from, placed_in};
ghost use Rattle.magnetic_record.specs.Copying.{magnetic_copied_of, magnetic_copy_buffer};

use magnetic_record_reading::reader::read_record;
use record_writing::Unwritten;

// The count of what was read and written; a refusal leaves out as it was.
pub fn copy_record(
    bytes: &[u8],
    out: &mut [u8],
    start: usize,
) -> Result<usize, Unwritten<group_record::Refusal>>
    ensures { (result ≡ magnetic_copied_of bytes.now out.old start)
        × (out.new ≡ magnetic_copy_buffer bytes.now out.old start) }
{
    match read_record(bytes) {
        Err(why) => Err(Unwritten::Refused(why)),
        Ok((_, n)) => {
            let from = bytes.len() - (6 * n + 5);
            if !place_bytes(&bytes[from..], out, start) {
                return Err(Unwritten::NoRoom);
            }
            Ok(n)
        }
    }
}

// Bytes from a stated place of a buffer; the answer is whether there was room, and without room nothing is written.
fn place_bytes(bytes: &[u8], out: &mut [u8], start: usize) -> bool
    ensures { (result ≡ room_from start (length bytes.now) (length out.old))
        × (out.new ≡ placed_in out.old start bytes.now) }
{
    let size = out.len();
    if size < start || size - start < bytes.len() {
        return false;
    }
    copy_bytes(bytes, &mut out[start..]);
    true
}

// Bytes at the start of out: by a loop, since `copy_from_slice` would have the unit ask for the C library's `memmove`.
fn copy_bytes(bytes: &[u8], out: &mut [u8])
    requires { length bytes.now ≤ length out.old }
    ensures { out.new ≡ bytes.now ++ drop (length bytes.now) out.old }
{
    for (i, &byte) in bytes.iter().enumerate() {
        out[i] = byte;
    }
}
