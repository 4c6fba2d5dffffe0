// Offsets in an N token: where its parts start, and which byte of its run is the first that offends.
// New in the port: a refusal of the Rust has no place.
ghost use Rattle.std.specs.Prelude.{◌≡◌};
ghost use Rattle.hall_token.specs.Offsets.{sign_length, mark_length, letter_length, run_start, failing_place, wrong_digit_at};
ghost use Rattle.hall_token.specs.Runs.{may_stand, no_screw};

use super::bytes::run_byte;
use super::translations::{may_stand, no_screw, translation_of};
use hall_axes::{Axis, Direction, Fold, Mark};

pub(crate) fn sign_length(negative: bool) -> usize
    ensures { result ≡ sign_length negative }
{
    usize::from(negative)
}

fn mark_length(mark: Mark) -> usize
    ensures { result ≡ mark_length mark }
{
    match mark {
        Mark::Unmarked => 0,
        Mark::Single | Mark::Double => 1,
    }
}

fn letter_length(letter: Option<Direction>) -> usize
    ensures { result ≡ letter_length letter }
{
    match letter {
        Some(_) => 1,
        None => 0,
    }
}

// The run stands behind the sign, the fold, the mark and the letter.
pub(crate) fn run_start(negative: bool, mark: Mark, letter: Option<Direction>) -> usize
    ensures { result ≡ run_start negative mark letter }
{
    sign_length(negative) + 1 + mark_length(mark) + letter_length(letter)
}

// The place of the first byte that may not stand in a run.
pub(crate) fn foreign_place(run: &[u8]) -> Option<usize>
    ensures { result ≡ failing_place may_stand run.now }
{
    run.iter().position(|byte| !may_stand(run_byte(*byte)))
}

// The place of the first digit of a run.
fn digit_place(run: &[u8]) -> Option<usize>
    ensures { result ≡ failing_place no_screw run.now }
{
    run.iter().position(|byte| !no_screw(run_byte(*byte)))
}

// The first digit that is wrong, in a run that has one: the first byte, if by itself it is, or else the first digit behind it.
pub(crate) fn wrong_digit(fold: Fold, axis: Axis, run: &[u8]) -> usize
    ensures { result ≡ wrong_digit_at fold axis run.now }
{
    if run.len() == 0 {
        return 0;
    }
    let Some(_) = translation_of(fold, axis, &run[..1]) else {
        return 0;
    };
    match digit_place(&run[1..]) {
        Some(place) => 1 + place,
        None => run.len(),
    }
}
