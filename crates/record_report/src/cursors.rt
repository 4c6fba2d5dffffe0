// Two cursors over the items of two records, each ascending by code: what differs where they stand, and where they go from there.
ghost use Rattle.std.specs.Prelude.{◌≡◌, ◌+◌, ◌*◌, ◌≤◌, ◌<◌, length, drop};
ghost use Rattle.record_report.specs.Cursors.{items_of, item_at, same_translation, kind_of, kind_of_difference, on_unless};

use operation::Translation;

pub(crate) fn item_code(bytes: &[u8], i: usize) -> u32
    requires { 5 * i + 5 ≤ length bytes.now }
    ensures { result ≡ (item_at bytes.now i).code }
{
    let at = 5 * i;
    bytes[at] as u32 * 256 + bytes[at + 1] as u32
}

pub(crate) fn item_translation(bytes: &[u8], i: usize) -> Translation
    requires { 5 * i + 5 ≤ length bytes.now }
    ensures { result ≡ (item_at bytes.now i).translation }
{
    let at = 5 * i;
    Translation {
        x: bytes[at + 2],
        y: bytes[at + 3],
        z: bytes[at + 4],
    }
}

// What differs where two cursors stand: an item that only the first has, or only the second, or a rotation of both with two triples.
#[derive(Clone, Copy)]
pub(crate) enum Difference {
    First,
    Second,
    Both,
}

// Triples of a record are the smallest of their classes, so they differ where their classes do.
pub(crate) fn difference_at(
    first: &[u8],
    i: usize,
    n: usize,
    second: &[u8],
    j: usize,
    m: usize,
) -> Option<Difference>
    requires { (i ≤ n) × (j ≤ m) × (i + j < n + m) × (5 * n + 5 ≤ length first.now) × (5 * m + 5 ≤ length second.now) }
    ensures { kind_of_difference result ≡ kind_of same_translation (drop i (items_of n first.now)) (drop j (items_of m second.now)) }
{
    if m <= j {
        return Some(Difference::First);
    }
    if n <= i {
        return Some(Difference::Second);
    }
    let code = item_code(first, i);
    let other = item_code(second, j);
    if code < other {
        return Some(Difference::First);
    }
    if other < code {
        return Some(Difference::Second);
    }
    if item_translation(first, i) == item_translation(second, j) {
        return None;
    }
    Some(Difference::Both)
}

// A cursor goes on unless the difference is only in the other record.
pub(crate) fn past(i: usize, j: usize, difference: Option<Difference>) -> (usize, usize)
    requires { (i < 4096) × (j < 4096) }
    ensures { (result.0 ≡ on_unless i (kind_of_difference difference) 2) × (result.1 ≡ on_unless j (kind_of_difference difference) 1) }
{
    match difference {
        Some(Difference::First) => (i + 1, j),
        Some(Difference::Second) => (i, j + 1),
        Some(Difference::Both) | None => (i + 1, j + 1),
    }
}
