// Why generators make no group: the refusals 12 to 14 of R8.
// New beside moyo 0.21.0, which has no such refusals.
ghost use Rattle.std.specs.Prelude.{◌≡◌};
ghost use Rattle.space_group.specs.Refusals.{number_of, place_of};

// A generator that does not map the lattice onto itself, by its index; over 48 rotations or an entry outside −1..1; two translations for one rotation.
#[derive(Clone, Copy)]
pub enum Refusal {
    Lattice(usize),
    Rotations,
    Translations,
}

impl Refusal {
    pub fn number(self) -> u8
        ensures { result ≡ number_of self }
    {
        match self {
            Refusal::Lattice(_) => 12,
            Refusal::Rotations => 13,
            Refusal::Translations => 14,
        }
    }

    pub fn place(self) -> usize
        ensures { result ≡ place_of self }
    {
        match self {
            Refusal::Lattice(generator) => generator,
            _ => 0,
        }
    }
}
