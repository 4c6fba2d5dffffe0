// Why a list is not compared: its symbol is refused, its length is wrong, or an entry is no operation.
ghost use Rattle.std.specs.Prelude.{◌≡◌};
ghost use Rattle.list_check.specs.Refusals.{number_of, place_of};

// The symbol's own refusal; 43, a length that is no multiple of five or over 240; 44, the first entry with a code over 19682 or a coordinate over 11.
#[derive(Clone, Copy)]
pub enum Refusal {
    Symbol(symbol_group::refusal::Refusal),
    Length,
    Entry(usize),
}

impl Refusal {
    pub fn number(self) -> u8
        ensures { result ≡ number_of self }
    {
        match self {
            Refusal::Symbol(refusal) => refusal.number(),
            Refusal::Length => 43,
            Refusal::Entry(_) => 44,
        }
    }

    pub fn place(self) -> usize
        ensures { result ≡ place_of self }
    {
        match self {
            Refusal::Symbol(refusal) => refusal.place(),
            Refusal::Length => 0,
            Refusal::Entry(index) => index,
        }
    }
}
