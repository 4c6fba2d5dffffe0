// Two sheets compared: from two records of edition 1 to a report of what differs between them, in a lent buffer. New in the port: the Rust has no records.
#![tactic(auto)]

mod cursors;
mod entries;

ghost use Rattle.std.specs.Prelude.{◌≡◌, length};
ghost use Rattle.record_report.specs.Compared.{fitted_answer, fitted, report_in, compared_of, buffer_of};
ghost use Rattle.record_report.specs.Report.{letters_report};
ghost use Rattle.record_report.specs.Sheets.{reading_of};
ghost use Rattle.record_report.specs.Lent.{Read};

use entries::report_entries;
use group_record::{Reading, Refusal};
use record_reading::reader::read_first_record;

// Why there is no report: the first record is not read, or the second is not, or the report does not fit.
#[derive(Clone, Copy)]
pub enum Incomparable {
    First(Refusal),
    Second(Refusal),
    NoRoom,
}

// The report stands from the start of out, and what is behind it stays; a refusal leaves out as it was.
pub fn compare_records(first: &[u8], second: &[u8], out: &mut [u8]) -> Result<usize, Incomparable>
    ensures { (result ≡ compared_of first.now second.now (length out.old))
        × (out.new ≡ buffer_of first.now second.now out.old) }
{
    if let Reading::Refused(why) = read(first) {
        return Err(Incomparable::First(why));
    }
    if let Reading::Refused(why) = read(second) {
        return Err(Incomparable::Second(why));
    }
    report(first, second, out)
}

// The one place where a record is read: what it holds stands in its bytes.
fn read(bytes: &[u8]) -> Reading
    ensures { result ≡ reading_of bytes.now }
{
    let group = read_first_record(bytes);
    group.answer
}

fn report(first: &[u8], second: &[u8], out: &mut [u8]) -> Result<usize, Incomparable>
    requires { Read first.now × Read second.now }
    ensures { (result ≡ fitted_answer (report_in first.now second.now) (length out.old))
        × (out.new ≡ fitted (report_in first.now second.now) out.old) }
{
    let letter = first[first.len() - 5];
    let other = second[second.len() - 5];
    if letter != other {
        return report_letters(letter, other, out);
    }
    let n = first[first.len() - 3] as usize;
    let m = second[second.len() - 3] as usize;
    let start = first.len() - (5 * n + 5);
    let begin = second.len() - (5 * m + 5);
    report_entries(&first[start..], n, &second[begin..], m, out)
}

fn report_letters(letter: u8, other: u8, out: &mut [u8]) -> Result<usize, Incomparable>
    ensures { (result ≡ fitted_answer (letters_report letter other) (length out.old))
        × (out.new ≡ fitted (letters_report letter other) out.old) }
{
    if out.len() < 2 {
        return Err(Incomparable::NoRoom);
    }
    out[0] = letter;
    out[1] = other;
    Ok(2)
}
