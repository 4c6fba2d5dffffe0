// The entries of a list: five bytes each, one after the other.
ghost use Rattle.std.specs.Prelude.{◌≡◌, ◌+◌, ◌*◌, ◌≤◌, length};
ghost use Rattle.five_bytes.specs.FiveBytes.{five_bytes_of};
ghost use Rattle.list_check.specs.Checked.{bytes_at, entry_count, wrong_at, entry_at};
ghost use Rattle.list_check.specs.Entries.{RightLength};
ghost use Rattle.list_check.specs.Slots.{first_below};

use five_bytes::operation_in;
use operation::Operation;
use operation::product::identity;

fn entry(list: &[u8], i: usize) -> Option<Operation>
    requires { 5 * i + 5 ≤ length list.now }
    ensures { result ≡ five_bytes_of (bytes_at list.now i) }
{
    operation_in(&list[5 * i..5 * i + 5])
}

fn is_wrong(list: &[u8], i: usize) -> bool
    requires { 5 * i + 5 ≤ length list.now }
    ensures { result ≡ wrong_at list.now i }
{
    matches!(entry(list, i), None)
}

// Five bytes that are no operation give the identity; no list that is compared has such.
pub(crate) fn operation_at(list: &[u8], i: usize) -> Operation
    requires { 5 * i + 5 ≤ length list.now }
    ensures { result ≡ entry_at list.now i }
{
    match entry(list, i) {
        Some(operation) => operation,
        None => identity(),
    }
}

// The index of the first entry that is no operation.
pub(crate) fn first_wrong(list: &[u8]) -> Option<usize>
    requires { RightLength list.now }
    ensures { result ≡ first_below (wrong_at list.now) (entry_count list.now) }
{
    (0..list.len() / 5).find(|&i| is_wrong(list, i))
}
