// The letters of an N token's run, of which each may stand there once. New in the port: the Rust adds a letter as often as it stands.
ghost use Rattle.std.specs.Prelude.{◌≡◌, ◌<◌, length, get_or, take};
ghost use Rattle.hall_token.specs.RunLetters.{is_letter, repeats, repeat_place};

use super::RunByte;
use super::bytes::run_byte;

fn is_letter(byte: RunByte) -> bool
    ensures { result ≡ is_letter byte }
{
    matches!(byte, RunByte::Letter(_))
}

// Whether the byte at a place is a letter that stands before it too.
fn repeats(run: &[u8], at: usize) -> bool
    requires { at < length run.now }
    ensures { result ≡ repeats (get_or run.now at 0) (take at run.now) }
{
    is_letter(run_byte(run[at])) && run[..at].contains(&run[at])
}

// The place of the first letter that repeats an earlier one.
pub(crate) fn first_repeat(run: &[u8]) -> Option<usize>
    ensures { result ≡ repeat_place run.now }
{
    for at in 0..run.len() {
        if repeats(run, at) {
            return Some(at);
        }
    }
    None
}
