// Why an N token is refused: 5, 8, 6, 7 and 17, in the order in which they go within a token. New in the port: a refusal of the Rust
// has no number.
ghost use Rattle.std.specs.Prelude.{◌≡◌};
ghost use Rattle.hall_token.specs.Refusals.{number_of};

#[derive(Clone, Copy)]
pub enum Refusal {
    Misspelt,
    Primed,
    Unsettled,
    Digit,
    Doubled,
}

impl Refusal {
    pub fn number(self) -> u8
        ensures { result ≡ number_of self }
    {
        match self {
            Refusal::Misspelt => 5,
            Refusal::Primed => 8,
            Refusal::Unsettled => 6,
            Refusal::Digit => 7,
            Refusal::Doubled => 17,
        }
    }
}
