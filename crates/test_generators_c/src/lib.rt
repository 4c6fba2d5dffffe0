// What a Hall symbol is read as, in numbers for C: a test library, so that tests/generators.c can hold the reader to other programs.
#![tactic(auto)]

ghost use Rattle.std.specs.Prelude.{◌≡◌};
ghost use Rattle.test_generators.specs.Packed.{packed_answer, packed_generator};
ghost use Rattle.hall_symbol.specs.Reader.{answer_of, read_symbol};

// Letter·256 + count modulo 256 below 65536; or number·65536 + place modulo 65536.
#[unsafe(no_mangle)]
pub extern "C" fn hall_symbol_answer(text: &[u8]) -> u64
    ensures { result ≡ packed_answer (answer_of (read_symbol text.now)) }
{
    test_generators::hall_symbol_answer(text)
}

// Rotation code·4096 + x·256 + y·16 + z of a generator, each coordinate modulo 16; of the identity past the slots.
#[unsafe(no_mangle)]
pub extern "C" fn hall_symbol_generator(text: &[u8], index: u64) -> u64
    ensures { result ≡ packed_generator (answer_of (read_symbol text.now)) index }
{
    test_generators::hall_symbol_generator(text, index)
}
