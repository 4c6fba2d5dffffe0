// The list of operations that generators give, as numbers in lent slots and up to any limit: breadth first from the identity, the right factor running over
// the generators in order, the first translation of each rotation and flag kept, modulo 12. Ported from `traverse` of data/hall_symbol.rs of moyo 0.21.0, and
// changed: numbers for matrices, every later translation is compared with the kept one, the index of each product is noted, and the list ends where one
// more than the limit or an entry outside −1..1 comes up.
ghost use Rattle.std.specs.Prelude.{◌≡◌, ◌++◌, map, ◌≤◌, ◌*◌, ◌%◌, length, get_or, take, drop};
ghost use Rattle.laws.specs.Growth.{place};
ghost use Rattle.space_group.specs.NumberGrowth.{sign_of, same_shift, unit_number, number_growth, generator_number};
ghost use Rattle.space_group.specs.Hints.{Hinted};
ghost use Rattle.space_group.specs.NumberSlots.{sign_position, Ends, Lists};
ghost use Rattle.space_group.specs.Listings.{off_position, numbers_listing};

use crate::refusal::Refusal;
use centering::Centering;
use operation::{Operation, Translation};
use packed_operation::{flag, key, number, product, said};

pub(crate) const FLAG: u64 = 9223372036854775808;

// The identity's number: digits 2 on the diagonal, else 1.
pub(crate) const IDENTITY: u64 = 9152337073407010;

// The spot of the identity's sign.
const START: usize = 63;

// The part of a number by which the list has it once: the rotation and the flag.
fn sign(n: u64) -> u64
    ensures { result ≡ sign_of n }
{
    key(n) + flag(n) * FLAG
}

// Where the hint of a sign stands. No two rotations of a crystallographic point group in its usual axes share a spot.
fn spot(sign: u64) -> usize
    ensures { result ≡ sign % 151 }
{
    (sign % 151) as usize
}

// The index of the first number with the sign sought, by a table of hints: at a sign's spot 0 stands where no number of the list has that spot, else one more
// than the index of the last that has. Where the hint leads astray, it is sought one by one.
fn place_of(numbers: &[u64], hints: &[u8; 151], sought: u64) -> Option<usize>
    requires { Hinted (map sign_of numbers.now) hints.now }
    ensures { result ≡ sign_position sought numbers.now }
{
    // 0 for no hint: a table of `Option<u8>` would take twice the room.
    let hint = hints[spot(sought)] as usize;
    if hint == 0 {
        return None;
    }
    let k = hint - 1;
    if k < numbers.len() && sign(numbers[k]) == sought {
        return Some(k);
    }
    numbers.iter().position(|n| sought == sign(*n))
}

// Equal numbers, the common case, need no look at the lattice.
fn agrees(c: Centering, p: u64, listed: u64) -> bool
    ensures { result ≡ same_shift c p listed }
{
    p == listed || c.congruent(said(p).translation, said(listed).translation)
}

// The growth by at most nine generators up to as many numbers as there are slots, the identity in the first. The slots then hold the list from their front, the
// steps the indices of the products: those of the first number with each generator, then those of the second, and so on; behind both all stays.
fn traverse(
    c: Centering,
    generators: &[u64],
    numbers: &mut [u64],
    steps: &mut [u8],
) -> Result<usize, Refusal>
    requires few { length generators.now ≤ 9 }
    requires some { 1 ≤ length numbers.old }
    requires limit { length numbers.old ≤ 96 }
    requires room { 9 * length numbers.old ≤ length steps.old }
    requires first { get_or numbers.old 0 0 ≡ unit_number }
    ensures { Ends (number_growth c (length numbers.old) generators.now) result numbers.old numbers.new steps.old steps.new }
{
    let mut hints = [0u8; 151];
    hints[START] = 1;
    let mut count = 1usize;
    let mut made = 0usize;
    let mut steady = true;
    // The list grows while it is gone through, so its end moves and this counts by hand.
    let mut i = 0usize;
    while i < count {
        for right in generators {
            let Some(p) = product(numbers[i], *right) else {
                return Err(Refusal::Rotations);
            };
            let sought = sign(p);
            let place = place_of(&numbers[..count], &hints, sought);
            steps[made] = place.unwrap_or(count) as u8;
            made += 1;
            if let Some(k) = place {
                steady = steady && agrees(c, p, numbers[k]);
                continue;
            }
            if numbers.len() <= count {
                return Err(Refusal::Rotations);
            }
            numbers[count] = p;
            count += 1;
            hints[spot(sought)] = count as u8;
        }
        i += 1;
    }
    if steady {
        Ok(count)
    } else {
        Err(Refusal::Translations)
    }
}

// The index of the first generator that does not map the lattice onto itself.
fn first_off(c: Centering, generators: &[Operation]) -> Option<usize>
    ensures { result ≡ off_position c generators.now }
{
    generators.iter().position(|g| !c.keeps(g.rotation))
}

// The list that generators give by their numbers, or why there is none.
pub(crate) fn listed(
    c: Centering,
    generators: &[Operation],
    factors: &[u64],
    numbers: &mut [u64],
    steps: &mut [u8],
) -> Result<usize, Refusal>
    requires few { length factors.now ≤ 9 }
    requires some { 1 ≤ length numbers.old }
    requires limit { length numbers.old ≤ 96 }
    requires room { 9 * length numbers.old ≤ length steps.old }
    requires first { get_or numbers.old 0 0 ≡ unit_number }
    ensures { Lists (numbers_listing c (length numbers.old) generators.now factors.now) result numbers.old numbers.new
        steps.old steps.new }
{
    if let Some(generator) = first_off(c, generators) {
        return Err(Refusal::Lattice(generator));
    }
    traverse(c, factors, numbers, steps)
}

// The number of a generator: a product does not change where the right factor's translation goes modulo 12.
pub(crate) fn generator_number(g: Operation) -> u64
    ensures { result ≡ generator_number g }
{
    let t = g.translation;
    let translation = Translation {
        x: t.x % 12,
        y: t.y % 12,
        z: t.z % 12,
    };
    number(
        Operation {
            rotation: g.rotation,
            translation,
        },
        0,
    )
}
