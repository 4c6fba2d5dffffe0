// The axis of an N token, by its fold, mark and letter and by what stands to its left; the number of a fold, and which axis is plain z.
// Ported from data/hall_symbol.rs of moyo 0.21.0 (`parse_operation`), and changed: enums for strings, and a refusal where no axis is settled.
ghost use Rattle.std.specs.Prelude.{◌≡◌, Some};
ghost use Rattle.hall_axes.specs.Axes.{fold_number, plain_z, axis, token_place, second_axis, third_axis, default_axis, plain_direction, second_direction, marked_direction, with_mark, turning_axis, identity_axis, axis_of};

use super::{Axis, Direction, Fold, Mark, Place, Previous};

pub fn fold_number(fold: Fold) -> u8
    ensures { result ≡ fold_number fold }
{
    match fold {
        Fold::One => 1,
        Fold::Two => 2,
        Fold::Three => 3,
        Fold::Four => 4,
        Fold::Six => 6,
    }
}

pub fn plain_z(mark: Mark, direction: Direction) -> bool
    ensures { result ≡ plain_z mark direction }
{
    matches!((mark, direction), (Mark::Unmarked, Direction::Z))
}

#[tactic(auto, unfolding(crate::specs::Axes::token_place))]
fn place_of(count: usize) -> Place
    ensures { result ≡ token_place count }
{
    match count {
        0 => Place::First,
        1 => Place::Second,
        2 => Place::Third,
        _ => Place::Later,
    }
}

fn with_mark(mark: Mark, letter: Option<Direction>) -> Option<Axis>
    ensures { result ≡ with_mark mark letter }
{
    match letter {
        Some(direction) => Some(Axis { mark, direction }),
        None => None,
    }
}

fn settled(mark: Mark, direction: Direction) -> Option<Axis>
    ensures { result ≡ Some (axis mark direction) }
{
    Some(Axis { mark, direction })
}

fn second_axis(before: Fold) -> Option<Axis>
    ensures { result ≡ second_axis before }
{
    match before {
        Fold::One => None,
        Fold::Two | Fold::Four => settled(Mark::Unmarked, Direction::X),
        Fold::Three | Fold::Six => settled(Mark::Single, Direction::Z),
    }
}

fn third_axis(own: Fold) -> Option<Axis>
    ensures { result ≡ third_axis own }
{
    match own {
        Fold::Three => settled(Mark::Unmarked, Direction::Diagonal),
        _ => None,
    }
}

// Neither mark nor letter.
fn default_axis(place: Place, before: Fold, own: Fold) -> Option<Axis>
    ensures { result ≡ default_axis place before own }
{
    match place {
        Place::First => settled(Mark::Unmarked, Direction::Z),
        Place::Second => second_axis(before),
        Place::Third => third_axis(own),
        Place::Later => None,
    }
}

// What the axis before hands on to a mark without a letter.
fn plain_direction(mark: Mark, direction: Direction) -> Option<Direction>
    ensures { result ≡ plain_direction mark direction }
{
    match (mark, direction) {
        (Mark::Unmarked, Direction::X | Direction::Y | Direction::Z) => Some(direction),
        _ => None,
    }
}

fn second_direction(handed: Option<Direction>, before: Fold) -> Option<Direction>
    ensures { result ≡ second_direction handed before }
{
    match (handed, before) {
        (None, Fold::Two) => Some(Direction::X),
        _ => handed,
    }
}

// A mark without a letter.
fn marked_direction(place: Place, before: Fold, axis: Axis) -> Option<Direction>
    ensures { result ≡ marked_direction place before axis }
{
    let handed = plain_direction(axis.mark, axis.direction);
    match place {
        Place::First => Some(Direction::Z),
        Place::Second => second_direction(handed, before),
        Place::Third | Place::Later => handed,
    }
}

fn identity_axis(mark: Mark, letter: Option<Direction>) -> Option<Axis>
    ensures { result ≡ identity_axis mark letter }
{
    match (mark, letter) {
        (Mark::Unmarked, None) => settled(Mark::Unmarked, Direction::Z),
        _ => None,
    }
}

// Folds 2, 3, 4 and 6.
fn turning_axis(
    own: Fold,
    mark: Mark,
    letter: Option<Direction>,
    previous: Previous,
) -> Option<Axis>
    ensures { result ≡ turning_axis own mark letter previous }
{
    if let Some(direction) = letter {
        return settled(mark, direction);
    }
    let place = place_of(previous.count);
    let before = previous.fold;
    match mark {
        Mark::Unmarked => default_axis(place, before, own),
        _ => with_mark(mark, marked_direction(place, before, previous.axis)),
    }
}

pub fn axis_of(own: Fold, mark: Mark, letter: Option<Direction>, previous: Previous) -> Option<Axis>
    ensures { result ≡ axis_of own mark letter previous }
{
    match own {
        Fold::One => identity_axis(mark, letter),
        _ => turning_axis(own, mark, letter, previous),
    }
}
