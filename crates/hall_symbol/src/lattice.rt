// The first token: an optional `-` and the letter of the lattice.
// Ported from data/hall_symbol.rs of moyo 0.21.0, and changed: what follows the letter is refused.
ghost use Rattle.std.specs.Prelude.{◌≡◌};
ghost use Rattle.hall_symbol.specs.Lattice.{letter_token, lattice_token};

use centering::Centering;

#[tactic(auto, unfolding(crate::specs::Lattice::letter_token))]
fn parse_letter(token: &[u8], inverted: bool) -> Option<(bool, Centering)>
    ensures { result ≡ letter_token inverted token.now }
{
    let [byte] = token else {
        return None;
    };
    match Centering::from_byte(*byte) {
        Some(centering) => Some((inverted, centering)),
        None => None,
    }
}

#[tactic(auto, unfolding(crate::specs::Lattice::lattice_token, crate::specs::Lattice::letter_token))]
pub(crate) fn parse_lattice(token: &[u8]) -> Option<(bool, Centering)>
    ensures { result ≡ lattice_token token.now }
{
    match token {
        [b'-', letter @ ..] => parse_letter(letter, true),
        _ => parse_letter(token, false),
    }
}
