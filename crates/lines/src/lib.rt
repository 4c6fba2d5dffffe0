// Cutting bytes that come in pieces into lines: the line that is being read is kept by value, and each call takes of a piece what belongs to one line.
#![tactic(auto)]

ghost use Rattle.std.specs.Prelude.{◌≡◌, true, [], ◌++◌, ◌≤◌, length, drop, replicate};
ghost use Rattle.lines.specs.Feeding.{joined};
ghost use Rattle.lines.specs.Keeping.{held, stored, zeros, line_in, taken_from, last_of};

// The line that is being read: `status` bytes of it are kept, or, where it is over 80, the first 80 of a line that has more.
#[derive(Clone, Copy)]
pub struct Kept {
    pub status: u8,
    pub bytes: [u8; 80],
}

// A line that is handed over: its `length` bytes, zeros behind them. Of a line over 80 bytes the first 80 are there, and a zero in place of the others.
#[derive(Clone, Copy)]
pub struct Line {
    pub length: usize,
    pub bytes: [u8; 81],
}

// What was made of a piece: so many of its bytes were taken, and the last of them ended a line, or none did; `kept` is what goes on.
#[derive(Clone, Copy)]
pub struct Taken {
    pub kept: Kept,
    pub taken: usize,
    pub finished: bool,
    pub line: Line,
}

// What is handed over at the end.
#[derive(Clone, Copy)]
pub struct Last {
    pub finished: bool,
    pub line: Line,
}

// No byte of a line has been read.
pub fn fresh() -> Kept
    ensures { result ≡ stored (replicate 80 0) [] }
{
    Kept {
        status: 0,
        bytes: [0; 80],
    }
}

// Byte 10 ends the line; what stands behind it in the piece is left for the next line.
pub fn take_line(kept: Kept, piece: &[u8]) -> Taken
    ensures { result ≡ taken_from kept piece.now }
{
    let mut line = counted(kept);
    for (i, &byte) in piece.iter().enumerate() {
        if byte == b'\n' {
            return ended(kept, line, i + 1);
        }
        line = join(line, byte);
    }
    Taken {
        kept: line,
        taken: piece.len(),
        finished: false,
        line: no_line(),
    }
}

// A last line that byte 10 does not end counts unless it holds no byte.
pub fn last_line(kept: Kept) -> Last
    ensures { result ≡ last_of kept }
{
    if kept.status == 0 {
        return Last {
            finished: false,
            line: no_line(),
        };
    }
    Last {
        finished: true,
        line: line_of(kept),
    }
}

// A status over 81 says no more than 81.
fn counted(kept: Kept) -> Kept
    ensures { result ≡ stored kept.bytes (held kept) }
{
    Kept {
        status: kept.status.min(81),
        ..kept
    }
}

// Of a line over 80 bytes nothing more is kept.
fn join(kept: Kept, byte: u8) -> Kept
    ensures { result ≡ stored kept.bytes (joined (held kept) byte) }
{
    if 80 <= kept.status {
        return Kept { status: 81, ..kept };
    }
    let mut bytes = kept.bytes;
    bytes[kept.status as usize] = byte;
    Kept {
        status: kept.status + 1,
        bytes,
    }
}

// The line so far is handed over, and what was kept of it before this piece is forgotten.
fn ended(kept: Kept, line: Kept, taken: usize) -> Taken
    ensures { result ≡ record { kept = stored kept.bytes []; taken = taken; finished = true; line = line_in (held line) } }
{
    let bytes = kept.bytes;
    Taken {
        kept: Kept { status: 0, bytes },
        taken,
        finished: true,
        line: line_of(line),
    }
}

fn no_line() -> Line
    ensures { result ≡ line_in [] }
{
    Line {
        length: 0,
        bytes: [0; 81],
    }
}

fn line_of(kept: Kept) -> Line
    ensures { result ≡ line_in (held kept) }
{
    if 80 < kept.status {
        return Line {
            length: 81,
            bytes: padded(&kept.bytes),
        };
    }
    let length = kept.status as usize;
    Line {
        length,
        bytes: padded(&kept.bytes[..length]),
    }
}

// Zeros behind the bytes.
fn padded(bytes: &[u8]) -> [u8; 81]
    requires { length bytes.now ≤ 80 }
    ensures { result ≡ bytes.now ++ drop (length bytes.now) zeros }
{
    let mut line = [0; 81];
    line[..bytes.len()].copy_from_slice(bytes);
    line
}
