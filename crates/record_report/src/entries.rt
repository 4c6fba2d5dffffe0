// The entries of a report: how many bytes they take, and their nine bytes each in the lent buffer.
ghost use Rattle.std.specs.Prelude.{◌≡◌, ◌++◌, ◌+◌, ◌*◌, ◌≤◌, ◌<◌, length, drop};
ghost use Rattle.record_report.specs.Compared.{fitted_answer, fitted};
ghost use Rattle.record_report.specs.Report.{entry_bytes};
ghost use Rattle.record_report.specs.Cursors.{item_at, bytes_at, bytes_between, kind_of_difference};
ghost use Rattle.record_report.specs.Writing.{with_entry};

use super::cursors::{Difference, difference_at, item_code, item_translation, past};
use crate::Incomparable;
use operation::Translation;

// The report of two records' items, if it fits.
pub(crate) fn report_entries(
    first: &[u8],
    n: usize,
    second: &[u8],
    m: usize,
    out: &mut [u8],
) -> Result<usize, Incomparable>
    requires { (n ≤ 48) × (m ≤ 48) × (5 * n + 5 ≤ length first.now) × (5 * m + 5 ≤ length second.now) }
    ensures { (result ≡ fitted_answer (bytes_between first.now n second.now m) (length out.old))
        × (out.new ≡ fitted (bytes_between first.now n second.now m) out.old) }
{
    let size = report_length(first, n, second, m);
    if out.len() < size {
        return Err(Incomparable::NoRoom);
    }
    put_entries(first, n, second, m, out);
    Ok(size)
}

fn report_length(first: &[u8], n: usize, second: &[u8], m: usize) -> usize
    requires { (n ≤ 48) × (m ≤ 48) × (5 * n + 5 ≤ length first.now) × (5 * m + 5 ≤ length second.now) }
    ensures { result ≡ length (bytes_between first.now n second.now m) }
{
    let mut size = 0usize;
    let mut i = 0usize;
    let mut j = 0usize;
    // Each turn moves one cursor or both, by what it finds, so this counts by hand.
    while i + j < n + m {
        let difference = difference_at(first, i, n, second, j, m);
        size = with_entry(size, difference);
        (i, j) = past(i, j, difference);
    }
    size
}

// Nine bytes more, where there is a difference.
fn with_entry(size: usize, difference: Option<Difference>) -> usize
    requires { size < 4096 }
    ensures { result ≡ with_entry size (kind_of_difference difference) }
{
    match difference {
        Some(_) => size + 9,
        None => size,
    }
}

fn put_entries(first: &[u8], n: usize, second: &[u8], m: usize, out: &mut [u8])
    requires { (n ≤ 48) × (m ≤ 48) × (5 * n + 5 ≤ length first.now) × (5 * m + 5 ≤ length second.now)
        × (length (bytes_between first.now n second.now m) ≤ length out.old) }
    ensures { out.new ≡ bytes_between first.now n second.now m
        ++ drop (length (bytes_between first.now n second.now m)) out.old }
{
    let mut at = 0usize;
    let mut i = 0usize;
    let mut j = 0usize;
    // Each turn moves one cursor or both, by what it finds, so this counts by hand.
    while i + j < n + m {
        let difference = difference_at(first, i, n, second, j, m);
        put_difference(difference, first, i, second, j, &mut out[at..]);
        at = with_entry(at, difference);
        (i, j) = past(i, j, difference);
    }
}

// What differs at the two cursors, at the start of out. A triple that is absent stands as 0 0 0.
fn put_difference(
    difference: Option<Difference>,
    first: &[u8],
    i: usize,
    second: &[u8],
    j: usize,
    out: &mut [u8],
)
    requires { (5 * i + 5 ≤ length first.now) × (5 * j + 5 ≤ length second.now)
        × (length (bytes_at (kind_of_difference difference) (item_at first.now i) (item_at second.now j)) ≤ length out.old) }
    ensures { out.new ≡ bytes_at (kind_of_difference difference) (item_at first.now i) (item_at second.now j)
        ++ drop (length (bytes_at (kind_of_difference difference) (item_at first.now i) (item_at second.now j))) out.old }
{
    let Some(found) = difference else {
        return;
    };
    let absent = Translation { x: 0, y: 0, z: 0 };
    match found {
        Difference::First => {
            let only = item_translation(first, i);
            put_entry(1, item_code(first, i), only, absent, out);
        }
        Difference::Second => {
            let only = item_translation(second, j);
            put_entry(2, item_code(second, j), absent, only, out);
        }
        Difference::Both => {
            let from = item_translation(first, i);
            let to = item_translation(second, j);
            put_entry(3, item_code(first, i), from, to, out);
        }
    }
}

// The nine bytes of an entry, at the start of out.
fn put_entry(kind: u8, code: u32, from: Translation, to: Translation, out: &mut [u8])
    requires { (9 ≤ length out.old) × (code < 65536) }
    ensures { out.new ≡ entry_bytes (record { kind = kind; code = code; first = from; second = to }) ++ drop 9 out.old }
{
    out[0] = kind;
    out[1] = (code / 256) as u8;
    out[2] = (code % 256) as u8;
    out[3] = from.x;
    out[4] = from.y;
    out[5] = from.z;
    out[6] = to.x;
    out[7] = to.y;
    out[8] = to.z;
}
