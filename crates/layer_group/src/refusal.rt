// Why a layer symbol has no layer group: the text with its capital letter is refused, 1 to 14 and 17, or its group is no layer group, 19.
// New beside moyo 0.21.0, which never checks that the result is a layer group.
ghost use Rattle.std.specs.Prelude.{◌≡◌};
ghost use Rattle.layer_group.specs.Refusals.{number_of, place_of};

// `NoLayer` holds the list index of the first operation that breaks the layer rules.
#[derive(Clone, Copy)]
pub enum Refusal {
    Symbol(symbol_group::refusal::Refusal),
    NoLayer(usize),
}

impl Refusal {
    pub fn number(self) -> u8
        ensures { result ≡ number_of self }
    {
        match self {
            Refusal::Symbol(refusal) => refusal.number(),
            Refusal::NoLayer(_) => 19,
        }
    }

    pub fn place(self) -> usize
        ensures { result ≡ place_of self }
    {
        match self {
            Refusal::Symbol(refusal) => refusal.place(),
            Refusal::NoLayer(index) => index,
        }
    }
}
