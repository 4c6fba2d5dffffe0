// Why a symbol has no group: its text is no symbol, refusals 1 to 11 of R8, or its generators make no group, 12 to 14.
// New beside moyo 0.21.0, which answers with an `Option` or panics.
ghost use Rattle.std.specs.Prelude.{◌≡◌};
ghost use Rattle.symbol_group.specs.Refusals.{number_of, place_of};

#[derive(Clone, Copy)]
pub enum Refusal {
    Text(hall_symbol::refusal::Refusal),
    Group(space_group::refusal::Refusal),
}

impl Refusal {
    pub fn number(self) -> u8
        ensures { result ≡ number_of self }
    {
        match self {
            Refusal::Text(refusal) => refusal.number(),
            Refusal::Group(refusal) => refusal.number(),
        }
    }

    pub fn place(self) -> usize
        ensures { result ≡ place_of self }
    {
        match self {
            Refusal::Text(refusal) => refusal.place(),
            Refusal::Group(refusal) => refusal.place(),
        }
    }
}
