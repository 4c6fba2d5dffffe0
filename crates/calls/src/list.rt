// On a symbol's text and another program's list of operations.
ghost use Rattle.std.specs.Prelude.{◌≡◌};
ghost use Rattle.list_check.specs.Checked.{checked_of};
ghost use Rattle.list_check.specs.Told.{checked_answer};
ghost use Rattle.symbol_numbers.specs.ListBounds.{said_number};
ghost use Rattle.answer_numbers.specs.Packing.{packed, mapped};

#[unsafe(no_mangle)]
pub extern "C" fn symmetry_symbol_check(text: &[u8], list: &[u8]) -> u64
    ensures { result ≡ packed (mapped said_number (checked_answer (checked_of text.now list.now))) }
{
    symbol_numbers::list::check_list(text, list)
}
