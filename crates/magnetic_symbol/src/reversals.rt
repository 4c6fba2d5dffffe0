// The copy of a magnetic symbol's text that the reader of plain symbols takes: a time reversal, the one `'` of an N token at its end behind other bytes, is
// a space there. Length and places stay, so every refusal of that reader comes with its place and in its order. The flags of the tokens are noted beside it.
ghost use Rattle.std.specs.Prelude.{◌≡◌, ◌+◌, ◌≤◌, length, take, drop};
ghost use Rattle.hall_symbol.specs.Bytes.{whitespace};
ghost use Rattle.magnetic_symbol.specs.Reversals.{marked, starting, within, after, ends, reverses, in_token, leads, gives, copied_byte, noted, blanked, flag_slots};

// Where a byte stands: before the first token or in it, between tokens, in an N token without or with a `'` to the left, or at or behind the first token
// that starts with `(`.
#[derive(Clone, Copy)]
pub(crate) enum Mode {
    Before,
    First,
    Between,
    Unmarked,
    Marked,
    Rest,
}

// The first `count` flags are those noted, the others false.
#[derive(Clone, Copy)]
pub(crate) struct Flags {
    pub count: usize,
    pub flags: [bool; 9],
}

#[derive(Clone, Copy)]
pub(crate) struct Copied {
    pub bytes: [u8; 80],
    pub flags: [bool; 9],
}

fn is_whitespace(byte: u8) -> bool
    ensures { result ≡ whitespace byte }
{
    match byte {
        9..=13 | 32 => true,
        _ => false,
    }
}

fn marked(byte: u8) -> Mode
    ensures { result ≡ marked byte }
{
    if byte == b'\'' {
        Mode::Marked
    } else {
        Mode::Unmarked
    }
}

fn starting(byte: u8) -> Mode
    ensures { result ≡ starting byte }
{
    if byte == b'(' {
        Mode::Rest
    } else {
        marked(byte)
    }
}

fn within(byte: u8, mode: Mode) -> Mode
    ensures { result ≡ within byte mode }
{
    if is_whitespace(byte) {
        Mode::Between
    } else {
        mode
    }
}

// Where the byte behind this one stands.
fn after(mode: Mode, byte: u8) -> Mode
    ensures { result ≡ after mode byte }
{
    match mode {
        Mode::Before if is_whitespace(byte) => Mode::Before,
        Mode::Before => Mode::First,
        Mode::First => within(byte, Mode::First),
        Mode::Between => within(byte, starting(byte)),
        Mode::Unmarked => within(byte, marked(byte)),
        Mode::Marked => within(byte, Mode::Marked),
        Mode::Rest => Mode::Rest,
    }
}

// Whether no token goes on in what follows.
fn ends(following: &[u8]) -> bool
    ensures { result ≡ ends following.now }
{
    match following.first() {
        Some(byte) => is_whitespace(*byte),
        None => true,
    }
}

// Whether a byte is a time reversal.
fn reverses(mode: Mode, byte: u8, last: bool) -> bool
    ensures { result ≡ reverses mode byte last }
{
    match mode {
        Mode::Unmarked => byte == b'\'' && last,
        _ => false,
    }
}

fn in_token(mode: Mode) -> bool
    ensures { result ≡ in_token mode }
{
    matches!(mode, Mode::Unmarked | Mode::Marked)
}

fn leads(mode: Mode, byte: u8) -> bool
    ensures { result ≡ leads mode byte }
{
    matches!(mode, Mode::Before) && byte == b'-'
}

// Whether a generator's flag is known here: at the `-` of the first token, and at the last byte of an N token.
fn gives(mode: Mode, byte: u8, last: bool) -> bool
    ensures { result ≡ gives mode byte last }
{
    leads(mode, byte) || (last && in_token(after(mode, byte)))
}

fn copied_byte(byte: u8, reversed: bool) -> u8
    ensures { result ≡ copied_byte byte reversed }
{
    if reversed { b' ' } else { byte }
}

impl Flags {
    // A flag noted if it is given, and if there is room.
    fn note(&mut self, given: bool, flag: bool)
        ensures { self.new ≡ noted self.old given flag }
    {
        if given && self.count < 9 {
            self.flags[self.count] = flag;
            self.count += 1;
        }
    }
}

// The copy of a text of at most 80 bytes, in the first places of eighty, and the flags.
pub(crate) fn blanked(text: &[u8]) -> Copied
    requires { length text.now ≤ 80 }
    ensures { (length result.bytes ≡ 80) × (take (length text.now) result.bytes ≡ blanked text.now)
        × (result.flags ≡ flag_slots text.now) }
{
    let mut bytes = [0u8; 80];
    let mut list = Flags {
        count: 0,
        flags: [false; 9],
    };
    let mut mode = Mode::Before;
    for (i, &byte) in text.iter().enumerate() {
        let last = ends(&text[i + 1..]);
        let reversed = reverses(mode, byte, last);
        let given = gives(mode, byte, last);
        bytes[i] = copied_byte(byte, reversed);
        list.note(given, reversed);
        mode = after(mode, byte);
    }
    let flags = list.flags;
    Copied { bytes, flags }
}
