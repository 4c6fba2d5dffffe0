// The letters of records, as the reader tells them apart.
ghost use Rattle.std.specs.Prelude.{◌≡◌};
ghost use Rattle.group_record.specs.Signs.{is_small, lattice_of};

use centering::Centering;

// That of a lattice, or the small letter of a layer group, whose lattice is that of P or C.
#[derive(Clone, Copy)]
pub enum Sign {
    Plain(Centering),
    SmallP,
    SmallC,
}

impl Sign {
    pub fn is_small(self) -> bool
        ensures { result ≡ is_small self }
    {
        !matches!(self, Sign::Plain(_))
    }

    pub fn lattice(self) -> Centering
        ensures { result ≡ lattice_of self }
    {
        match self {
            Sign::Plain(c) => c,
            Sign::SmallP => Centering::P,
            Sign::SmallC => Centering::C,
        }
    }
}
