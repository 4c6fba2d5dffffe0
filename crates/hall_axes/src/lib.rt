// Folds and axes of a Hall symbol: the axis of an N token, by its fold, mark and letter and by what stands to its left, and the rotation of a fold about it.
// Ported from data/hall_symbol.rs of moyo 0.21.0 (`parse_operation`, `parse_rotation_matrix`), and changed: enums for strings, a refusal where no axis is
// settled.
#![tactic(auto)]

use operation::Rotation;

pub mod axes;
pub mod matrices;

#[derive(Clone, Copy)]
pub enum Fold {
    One,
    Two,
    Three,
    Four,
    Six,
}

// No mark, `^` (p in the Rust), `=` (pp in the Rust).
#[derive(Clone, Copy)]
pub enum Mark {
    Unmarked,
    Single,
    Double,
}

// Diagonal is `*`, the direction a+b+c.
#[derive(Clone, Copy)]
pub enum Direction {
    X,
    Y,
    Z,
    Diagonal,
}

#[derive(Clone, Copy)]
pub struct Axis {
    pub mark: Mark,
    pub direction: Direction,
}

// What stands to the left of an N token: how many N tokens, and the last one's fold and axis, which mean nothing where there is none.
#[derive(Clone, Copy)]
pub struct Previous {
    pub count: usize,
    pub fold: Fold,
    pub axis: Axis,
}

// The place of a token among the N tokens.
#[derive(Clone, Copy)]
pub(crate) enum Place {
    First,
    Second,
    Third,
    Later,
}
