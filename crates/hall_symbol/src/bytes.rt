// Classes of bytes, and the words that they part a text into.
// Ported from data/hall_symbol.rs of moyo 0.21.0, and changed: bytes for characters, and no whitespace but 9 to 13 and 32.
ghost use Rattle.std.specs.Prelude.{◌≡◌, Bool, ℕ, ◌+◌, ◌<◌, drop};
ghost use Rattle.hall_symbol.specs.Bytes.{whitespace, allowed};
ghost use Rattle.hall_symbol.specs.Runs.{run};
ghost use Rattle.hall_symbol.specs.Places.{found_word};

// Where a word starts, and the place behind it.
#[derive(Clone, Copy)]
pub(crate) struct Word {
    pub start: usize,
    pub end: usize,
}

// Whitespace separates tokens.
#[tactic(auto, unfolding(crate::specs::Bytes::whitespace))]
pub fn is_whitespace(byte: u8) -> bool
    ensures { result ≡ whitespace byte }
{
    matches!(byte, 9..=13 | 32)
}

// The bytes that may stand in a symbol.
#[tactic(auto, unfolding(crate::specs::Bytes::allowed))]
pub(crate) fn is_allowed(byte: u8) -> bool
    ensures { result ≡ allowed byte }
{
    matches!(byte, 9..=13 | 32..=126)
}

// The place behind the run of bytes that pass a test, from a place on.
pub(crate) fn scan<F: Fn(u8) -> bool>(text: &[u8], at: usize, passes: F) -> usize
    requires { F.IsAlwaysCallable passes }
    ensures { (f : ℕ → Bool) → ((b : ℕ) (r : Bool) → b < 256 → F.post passes b r → r ≡ f b) → result ≡ at + run f (drop at text.now) }
{
    for i in at..text.len() {
        if !passes(text[i]) {
            return i;
        }
    }
    at.max(text.len())
}

// The first word from a place on, unless only whitespace is left.
pub(crate) fn next_word(text: &[u8], at: usize) -> Option<Word>
    ensures { result ≡ found_word at text.now }
{
    let start = scan(text, at, is_whitespace);
    if text.len() <= start {
        return None;
    }
    let end = scan(text, start, |byte| !is_whitespace(byte));
    Some(Word { start, end })
}
