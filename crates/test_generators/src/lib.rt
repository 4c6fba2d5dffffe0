// What a Hall symbol is read as, in numbers: a test library, for test_generators_c, which hands it to C.
#![tactic(auto)]

ghost use Rattle.std.specs.Prelude.{◌≡◌};
ghost use Rattle.test_generators.specs.Packed.{packed_answer, packed_generator};
ghost use Rattle.hall_symbol.specs.Reader.{answer_of, read_symbol};

use hall_symbol::{Answer, HallSymbol};
use operation::code::rotation_code;

// Letter·256 + count modulo 256 below 65536; or number·65536 + place modulo 65536.
pub fn hall_symbol_answer(text: &[u8]) -> u64
    ensures { result ≡ packed_answer (answer_of (read_symbol text.now)) }
{
    answer_number(HallSymbol::new(text))
}

// Rotation code·4096 + x·256 + y·16 + z of a generator, each coordinate modulo 16; of the identity past the slots.
pub fn hall_symbol_generator(text: &[u8], index: u64) -> u64
    ensures { result ≡ packed_generator (answer_of (read_symbol text.now)) index }
{
    generator_number(HallSymbol::new(text), index)
}

// The same of a symbol that was read.
pub fn answer_number(symbol: HallSymbol) -> u64
    ensures { result ≡ packed_answer symbol }
{
    match symbol.answer {
        Answer::Symbol => (symbol.centering.byte() as u64) * 256 + (symbol.count % 256) as u64,
        Answer::Refused(refusal) => {
            let number = refusal.number() as u64;
            let place = (refusal.place() % 65536) as u64;
            number * 65536 + place
        }
    }
}

pub fn generator_number(symbol: HallSymbol, index: u64) -> u64
    ensures { result ≡ packed_generator symbol index }
{
    if 9 <= index {
        return 0;
    }
    let o = symbol.generators[index as usize];
    let t = o.translation;
    (rotation_code(o.rotation) as u64) * 4096
        + ((t.x % 16) as u64) * 256
        + ((t.y % 16) as u64) * 16
        + (t.z % 16) as u64
}
