// Sets of elements, and lists of them in lent bytes. The two files say what of it was ported from moyo 0.21.0, and changed.
#![tactic(auto)]

pub mod sets;
pub mod slots;
