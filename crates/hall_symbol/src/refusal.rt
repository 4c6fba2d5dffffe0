// Why a text is no Hall symbol: the refusals 1 to 11 and 17, each with its place where the text decides it. An N token's refusal is held as that
// room gives it, with its place in the text.
// New beside moyo 0.21.0, which answers with an `Option` or panics.
ghost use Rattle.std.specs.Prelude.{◌≡◌};
ghost use Rattle.hall_symbol.specs.Refusals.{number_of, place_of};

#[derive(Clone, Copy)]
pub enum Refusal {
    TooLong,
    ForbiddenByte(usize),
    NoToken,
    Lattice(usize),
    Token(usize, hall_token::refusal::Refusal),
    Shift(usize),
    NoRotation(usize),
    TooMany(usize),
}

impl Refusal {
    pub fn number(self) -> u8
        ensures { result ≡ number_of self }
    {
        match self {
            Refusal::TooLong => 1,
            Refusal::ForbiddenByte(_) => 2,
            Refusal::NoToken => 3,
            Refusal::Lattice(_) => 4,
            Refusal::Token(_, refusal) => refusal.number(),
            Refusal::Shift(_) => 9,
            Refusal::NoRotation(_) => 10,
            Refusal::TooMany(_) => 11,
        }
    }

    pub fn place(self) -> usize
        ensures { result ≡ place_of self }
    {
        match self {
            Refusal::TooLong => 80,
            Refusal::ForbiddenByte(place) => place,
            Refusal::NoToken => 0,
            Refusal::Lattice(place) => place,
            Refusal::Token(place, _) => place,
            Refusal::Shift(place) => place,
            Refusal::NoRotation(place) => place,
            Refusal::TooMany(place) => place,
        }
    }
}
