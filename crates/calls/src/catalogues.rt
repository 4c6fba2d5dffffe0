// On a catalogue that comes in pieces, with its state in 81 lent bytes.
ghost use Rattle.std.specs.Prelude.{◌≡◌};
ghost use Rattle.catalogue_numbers.specs.Catalogues.{start_answer, start_state, piece_answer, piece_state, piece_out, end_answer, end_state, end_out};
ghost use Rattle.answer_numbers.specs.Packing.{packed};

#[unsafe(no_mangle)]
pub extern "C" fn symmetry_catalogue_start(state: &mut [u8]) -> u64
    ensures { (result ≡ packed (start_answer state.old)) × (state.new ≡ start_state state.old) }
{
    catalogue_numbers::start(state)
}

#[unsafe(no_mangle)]
pub extern "C" fn symmetry_catalogue_piece(state: &mut [u8], piece: &[u8], out: &mut [u8]) -> u64
    ensures { (result ≡ packed (piece_answer state.old piece.now out.old))
        × (state.new ≡ piece_state state.old piece.now out.old)
        × (out.new ≡ piece_out state.old piece.now out.old) }
{
    catalogue_numbers::piece(state, piece, out)
}

#[unsafe(no_mangle)]
pub extern "C" fn symmetry_catalogue_end(state: &mut [u8], out: &mut [u8]) -> u64
    ensures { (result ≡ packed (end_answer state.old out.old))
        × (state.new ≡ end_state state.old out.old)
        × (out.new ≡ end_out state.old out.old) }
{
    catalogue_numbers::end(state, out)
}
