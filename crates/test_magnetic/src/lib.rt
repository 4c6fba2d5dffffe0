// What a magnetic Hall symbol is read as, in numbers for C: a test library, so that tests/magnetic.c can hold the reader to the rules.
#![tactic(auto)]

ghost use Rattle.std.specs.Prelude.{◌≡◌};
ghost use Rattle.test_magnetic.specs.Packed.{packed_answer, packed_generator, packed_flag};
ghost use Rattle.magnetic_symbol.specs.Answer.{magnetic_answer};

use magnetic_symbol::MagneticSymbol;
use test_generators::{answer_number, generator_number};

// Letter·256 + count modulo 256 below 65536; or number·65536 + place modulo 65536.
#[unsafe(no_mangle)]
pub extern "C" fn magnetic_symbol_answer(text: &[u8]) -> u64
    ensures { result ≡ packed_answer (magnetic_answer text.now).symbol }
{
    answer_number(MagneticSymbol::new(text).symbol)
}

// Rotation code·4096 + x·256 + y·16 + z of a generator, each coordinate modulo 16; of the identity past the slots.
#[unsafe(no_mangle)]
pub extern "C" fn magnetic_symbol_generator(text: &[u8], index: u64) -> u64
    ensures { result ≡ packed_generator (magnetic_answer text.now).symbol index }
{
    generator_number(MagneticSymbol::new(text).symbol, index)
}

// 1 for a generator with time reversal, else 0.
#[unsafe(no_mangle)]
pub extern "C" fn magnetic_symbol_flag(text: &[u8], index: u64) -> u64
    ensures { result ≡ packed_flag (magnetic_answer text.now).flags index }
{
    let flags = MagneticSymbol::new(text).flags;
    if 9 <= index {
        return 0;
    }
    let flag = flags[index as usize];
    if flag { 1 } else { 0 }
}
