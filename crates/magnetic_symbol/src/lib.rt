// The text of a magnetic Hall symbol: any bytes in, the letter and the generators with their flags out, or the refusal. A `'` at the end of an N token
// means time reversal; without it, the token is read as in a plain symbol. New beside the plain reader, which still refuses every `'`.
#![tactic(auto)]

ghost use Rattle.std.specs.Prelude.{◌≡◌};
ghost use Rattle.magnetic_symbol.specs.Answer.{kept_flags, magnetic_answer};

mod reversals;

use hall_symbol::{Answer, HallSymbol};

// The symbol of the text without its time reversals, and the flag of each of its generators. The other flags are false, and all of a refused text.
#[derive(Clone, Copy)]
pub struct MagneticSymbol {
    pub symbol: HallSymbol,
    pub flags: [bool; 9],
}

fn kept(answer: Answer, flags: [bool; 9]) -> [bool; 9]
    ensures { result ≡ kept_flags answer flags }
{
    match answer {
        Answer::Symbol => flags,
        Answer::Refused(_) => [false; 9],
    }
}

impl MagneticSymbol {
    pub fn new(text: &[u8]) -> MagneticSymbol
        ensures { result ≡ magnetic_answer text.now }
    {
        if 80 < text.len() {
            return MagneticSymbol {
                symbol: HallSymbol::new(text),
                flags: [false; 9],
            };
        }
        let copy = reversals::blanked(text);
        let symbol = HallSymbol::new(&copy.bytes[..text.len()]);
        let flags = kept(symbol.answer, copy.flags);
        MagneticSymbol { symbol, flags }
    }
}
