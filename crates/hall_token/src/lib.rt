// One N token of a Hall symbol, read into an operation with its fold and axis, or refused.
// Ported from data/hall_symbol.rs of moyo 0.21.0 (`parse_operation`, `parse_translation_vector`), and changed: enums for
// strings, twelfths for f64, refusals for panics and for what the Rust lets pass.
#![tactic(auto)]

ghost use Rattle.std.specs.Prelude.{◌≡◌};
ghost use Rattle.hall_token.specs.Reader.{operation_token, operation_of_parts, read_fold, read_mark, read_letter, read_run};

mod bytes;
mod letters;
mod offsets;
pub mod refusal;
mod translations;

use bytes::{fold_of, letter_of, mark_of};
use hall_axes::axes::axis_of;
use hall_axes::matrices::{rotation_about, with_sign};
use hall_axes::{Axis, Direction, Fold, Mark, Previous};
use letters::first_repeat;
use offsets::{foreign_place, run_start, sign_length, wrong_digit};
use operation::Translation;
use refusal::Refusal;
use translations::{translation_of, unprimed};

// What a byte of a token's run says: a screw's digit, a letter's translation, time reversal, or nothing that may stand there.
#[derive(Clone, Copy)]
pub(crate) enum RunByte {
    Screw(u8),
    Letter(Translation),
    Prime,
    Foreign,
}

#[tactic(auto, unfolding(crate::specs::Reader::operation_token, crate::specs::Reader::operation_of_parts, crate::specs::Reader::read_token))]
pub fn parse_operation(
    token: &[u8],
    previous: Previous,
) -> Result<(operation::Operation, Fold, Axis), (usize, Refusal)>
    ensures { result ≡ operation_token token.now previous }
{
    match token {
        [] => Err((0, Refusal::Misspelt)),
        [b'-', rest @ ..] => after_sign(rest, true, previous),
        _ => after_sign(token, false, previous),
    }
}

#[tactic(auto, unfolding(crate::specs::Reader::read_fold, crate::specs::Reader::fold_then, crate::specs::Reader::operation_of_parts))]
fn after_sign(
    token: &[u8],
    negative: bool,
    previous: Previous,
) -> Result<(operation::Operation, Fold, Axis), (usize, Refusal)>
    ensures { result ≡ operation_of_parts (read_fold negative token.now) previous }
{
    let sign = sign_length(negative);
    let [first, rest @ ..] = token else {
        return Err((sign, Refusal::Misspelt));
    };
    let Some(fold) = fold_of(*first) else {
        return Err((sign, Refusal::Misspelt));
    };
    after_fold(rest, negative, fold, previous)
}

#[tactic(auto, unfolding(crate::specs::Reader::read_mark, crate::specs::Reader::mark_then))]
fn after_fold(
    token: &[u8],
    negative: bool,
    fold: Fold,
    previous: Previous,
) -> Result<(operation::Operation, Fold, Axis), (usize, Refusal)>
    ensures { result ≡ operation_of_parts (read_mark negative fold token.now) previous }
{
    match token {
        [] => after_mark(token, negative, fold, Mark::Unmarked, previous),
        [first, rest @ ..] => match mark_of(*first) {
            Mark::Unmarked => after_mark(token, negative, fold, Mark::Unmarked, previous),
            mark => after_mark(rest, negative, fold, mark, previous),
        },
    }
}

#[tactic(auto, unfolding(crate::specs::Reader::read_letter, crate::specs::Reader::letter_then))]
fn after_mark(
    token: &[u8],
    negative: bool,
    fold: Fold,
    mark: Mark,
    previous: Previous,
) -> Result<(operation::Operation, Fold, Axis), (usize, Refusal)>
    ensures { result ≡ operation_of_parts (read_letter negative fold mark token.now) previous }
{
    match token {
        [] => after_letter(token, negative, fold, mark, None, previous),
        [first, rest @ ..] => match letter_of(*first) {
            None => { after_letter(token, negative, fold, mark, None, previous) }
            letter => after_letter(rest, negative, fold, mark, letter, previous),
        },
    }
}

// What is left is the run. The refusals go in this order: 5, 8, 6, 7, 17.
fn after_letter(
    run: &[u8],
    negative: bool,
    fold: Fold,
    mark: Mark,
    letter: Option<Direction>,
    previous: Previous,
) -> Result<(operation::Operation, Fold, Axis), (usize, Refusal)>
    ensures { result ≡ operation_of_parts (read_run negative fold mark letter run.now) previous }
{
    let start = run_start(negative, mark, letter);
    if let Some(foreign) = foreign_place(run) {
        return Err((start + foreign, Refusal::Misspelt));
    }
    if !unprimed(run) {
        return Err((0, Refusal::Primed));
    }
    let Some(axis) = axis_of(fold, mark, letter, previous) else {
        return Err((0, Refusal::Unsettled));
    };
    let Some(turn) = rotation_about(fold, axis) else {
        return Err((0, Refusal::Unsettled));
    };
    let Some(translation) = translation_of(fold, axis, run) else {
        return Err((start + wrong_digit(fold, axis, run), Refusal::Digit));
    };
    if let Some(repeat) = first_repeat(run) {
        return Err((start + repeat, Refusal::Doubled));
    }
    let rotation = with_sign(negative, turn);
    Ok((
        operation::Operation {
            rotation,
            translation,
        },
        fold,
        axis,
    ))
}
