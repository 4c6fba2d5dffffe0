// Operations (R, t) with entries of R in −1..1 and t in twelfths of a cell edge: the product, the rotation's code and type, and doubles.
// Ported from base/operation.rs and identify/rotation_type.rs of moyo 0.21.0, and changed: digits for entries, twelfths for f64, refusals for panics.
#![tactic(auto)]

pub mod code;
pub mod doubles;
pub mod lanes;
pub mod product;
pub mod rotation_type;

// A rotation by rows: each field is an entry of the matrix plus one, so 0, 1, 2 for −1, 0, 1.
#[derive(Clone, Copy, PartialEq, Eq)]
pub struct Rotation {
    pub xx: u8,
    pub xy: u8,
    pub xz: u8,
    pub yx: u8,
    pub yy: u8,
    pub yz: u8,
    pub zx: u8,
    pub zy: u8,
    pub zz: u8,
}

// A translation in twelfths of the cell edges.
#[derive(Clone, Copy, PartialEq, Eq)]
pub struct Translation {
    pub x: u8,
    pub y: u8,
    pub z: u8,
}

#[derive(Clone, Copy, PartialEq, Eq)]
pub struct Operation {
    pub rotation: Rotation,
    pub translation: Translation,
}
