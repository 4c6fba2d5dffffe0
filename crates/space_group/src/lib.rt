// The operations that generators give, in list order, and the refusals of generators that make no group.
// Ported from data/hall_symbol.rs of moyo 0.21.0 (`traverse`), and changed: translations are compared modulo the lattice, and what is no group is refused.
#![tactic(auto)]

ghost use Rattle.std.specs.Prelude.{◌≡◌, take};
ghost use Rattle.space_group.specs.Slots.{group_answer};

pub mod flagged;
mod group;
pub mod refusal;
mod traverse;

use centering::Centering;
use group::group_of;
use operation::Operation;
use refusal::Refusal;

#[derive(Clone, Copy)]
pub enum Answer {
    Group,
    Refused(Refusal),
}

// The first `count` operations are the list, the others the identity. With n generators the index of operation i times generator j stands at i·n + j
// of the steps; past the last they are 0. Where there is no group, the centering is P, and there are no operations and no generators.
#[derive(Clone, Copy)]
pub struct SpaceGroup {
    pub answer: Answer,
    pub centering: Centering,
    pub count: usize,
    pub operations: [Operation; 48],
    pub generators: usize,
    pub steps: [u8; 432],
}

impl SpaceGroup {
    // The group of a lattice and the first n of nine generators, or of all where n is over 9.
    pub fn new(centering: Centering, n: usize, generators: [Operation; 9]) -> SpaceGroup
        ensures { result ≡ group_answer centering (take n generators) }
    {
        group_of(centering, &generators[..n.min(9)])
    }
}
