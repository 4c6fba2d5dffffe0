// The copy of a layer symbol's text that the reader of plain symbols takes: p or c of the first token is P or C there, and any other first token begins
// with `?`, so that it is refused 4 at its place. Length and places stay, so every other refusal comes from that reader, with its place and in its order.
ghost use Rattle.std.specs.Prelude.{◌≡◌, ◌≤◌, not, length, take, drop};
ghost use Rattle.std.specs.List.{position};
ghost use Rattle.hall_symbol.specs.Bytes.{whitespace};
ghost use Rattle.layer_group.specs.Capitals.{is_small, letter_here, marked, capitalised};

fn is_whitespace(byte: u8) -> bool
    ensures { result ≡ whitespace byte }
{
    match byte {
        9..=13 | 32 => true,
        _ => false,
    }
}

// The mark in place of a byte, unless that byte may not stand in a text: then 2 is due there.
fn marked_byte(byte: u8) -> u8
    ensures { result ≡ marked byte }
{
    match byte {
        9..=13 | 32..=126 => b'?',
        _ => byte,
    }
}

// Where the first token starts.
fn first_token(text: &[u8]) -> Option<usize>
    ensures { result ≡ position (λ b. not (whitespace b)) text.now }
{
    text.iter().position(|byte| !is_whitespace(*byte))
}

#[tactic(auto, unfolding(crate::specs::Capitals::is_small))]
fn is_small(byte: u8) -> bool
    ensures { result ≡ is_small byte }
{
    byte == b'p' || byte == b'c'
}

// Whether p or c stands here and ends its token.
fn is_letter(text: &[u8]) -> bool
    ensures { result ≡ letter_here text.now }
{
    match text {
        [] => false,
        [byte] => is_small(*byte),
        [byte, next, ..] => is_small(*byte) && is_whitespace(*next),
    }
}

fn copied(text: &[u8]) -> [u8; 80]
    requires { length text.now ≤ 80 }
    ensures { take (length text.now) result ≡ text.now }
{
    let mut copy = [0u8; 80];
    copy[..text.len()].copy_from_slice(text);
    copy
}

// The copy of a text of at most 80 bytes, in the first places of eighty.
pub(crate) fn capitals(text: &[u8]) -> [u8; 80]
    requires { length text.now ≤ 80 }
    ensures { take (length text.now) result ≡ capitalised text.now }
{
    let mut copy = copied(text);
    let Some(start) = first_token(text) else {
        return copy;
    };
    let first = text[start];
    if is_letter(&text[start..]) {
        copy[start] = first - 32;
        return copy;
    }
    let next = start + 1;
    if first == b'-' && is_letter(&text[next..]) {
        copy[next] = text[next] - 32;
        return copy;
    }
    copy[start] = marked_byte(first);
    copy
}
