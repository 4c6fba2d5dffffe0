// What is asked of a symbol's text and another program's list of operations.
ghost use Rattle.std.specs.Prelude.{◌≡◌};
ghost use Rattle.list_check.specs.Checked.{checked_of};
ghost use Rattle.list_check.specs.Refusals.{number_of, place_of};
ghost use Rattle.list_check.specs.Told.{checked_answer};
ghost use Rattle.symbol_numbers.specs.ListBounds.{said_number};
ghost use Rattle.answer_numbers.specs.Packing.{packed, mapped, told_number};

use answer_numbers::refused;
use list_check::Verdict;
use list_check::refusal::Refusal;

pub fn check_list(text: &[u8], list: &[u8]) -> u64
    ensures { result ≡ packed (mapped said_number (checked_answer (checked_of text.now list.now))) }
{
    match list_check::check_list(text, list) {
        Ok(Verdict::Yes) => 0,
        Ok(Verdict::Entry(i)) => 65536 + i as u64,
        Ok(Verdict::Missing(code)) => 131072 + code as u64,
        Err(refusal) => refused_list(refusal),
    }
}

fn refused_list(refusal: Refusal) -> u64
    ensures { result ≡ told_number (number_of refusal) (place_of refusal) }
{
    refused(refusal.number(), refusal.place())
}
