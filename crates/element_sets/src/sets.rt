// Sets of elements as 64-bit numbers, bit i set for member i. Shifts are by the remainder of 64, so that each function has an answer for any element.
// Ported from subgroup/finite_group.rs of moyo 0.21.0, and changed: 64-bit numbers for ordered sets.
ghost use Rattle.std.specs.Prelude.{◌≡◌, true, false, cond, ℕ, ◌<◌, ◌^◌, eqb};
ghost use Rattle.std.specs.Int.Bits.{bit_and, bit_or};
ghost use Rattle.std.specs.Iterator.{at_most};
ghost use Rattle.laws.specs.Sets.{member};
ghost use Rattle.laws.specs.ListOrder.{earlier};
ghost use Rattle.subgroup_laws.specs.Removal.{Without, outside_of, rest_of};

pub fn contains(s: u64, i: usize) -> bool
    ensures { i < 64 → result ≡ member s i }
{
    (s >> (i % 64)) % 2 == 1
}

pub fn with_element(s: u64, i: usize) -> u64
    ensures { i < 64 → result ≡ bit_or s (2 ^ i) }
{
    s | (1u64 << (i % 64))
}

// The lowest member of a set that has one.
pub fn lowest(s: u64) -> usize
    ensures { 0 < s → (member s result ≡ true) × (result < 64) × ((j : ℕ) → j < result → member s j ≡ false) }
{
    s.trailing_zeros() as usize
}

// A set without one of its members.
pub fn without(s: u64, i: usize) -> u64
    ensures { member s i ≡ true → Without s i result }
{
    s ^ (1u64 << (i % 64))
}

// The members of a set that are still to come, the lowest first.
#[derive(Drop)]
pub struct Members {
    pub left: u64,
}

impl Members {
    pub fn of(s: u64) -> Self
        ensures { result.left ≡ s }
    {
        Members { left: s }
    }
}

impl Iterator for Members {
    ghost use Rattle.element_sets.specs.Members.{Step};

    type Item = usize;

    ghost remaining = { λ s. at_most s.left };

    ghost next_gives = { λ s r t. Step s.left r t.left };

    fn next(&mut self) -> Option<usize> {
        if self.left == 0 {
            return None;
        }
        let x = lowest(self.left);
        self.left = without(self.left, x);
        Some(x)
    }
}

// The members of a that are none of b.
pub fn outside(a: u64, b: u64) -> u64
    ensures { result ≡ outside_of a b }
{
    a ^ (a & b)
}

// The elements that are none of s.
pub fn rest_of(n: usize, s: u64) -> u64
    ensures { n < 64 → result ≡ rest_of n s }
{
    outside((1u64 << (n % 64)) - 1, s)
}

// Whether each member of a is one of b.
pub fn within(a: u64, b: u64) -> bool
    ensures { result ≡ eqb (bit_and a b) a }
{
    a & b == a
}

// Whether a stands before b in the list: more members, or the lowest element in which the two differ.
pub fn precedes(a: u64, b: u64) -> bool
    ensures { result ≡ earlier 64 a b }
{
    let p = a.count_ones();
    let q = b.count_ones();
    if p != q {
        return q < p;
    }
    let d = (a ^ b).trailing_zeros();
    d < 64 && contains(a, d as usize)
}

// The one of the two that stands before the other.
pub fn earlier_of(a: u64, b: u64) -> u64
    ensures { result ≡ cond (earlier 64 a b) a b }
{
    if precedes(a, b) { a } else { b }
}
