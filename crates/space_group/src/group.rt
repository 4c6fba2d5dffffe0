// The group of a list of generators, by value, or why there is none.
// Ported from data/hall_symbol.rs of moyo 0.21.0, and changed: what makes no group is refused.
ghost use Rattle.std.specs.Prelude.{◌≡◌, ◌++◌, map, ◌≤◌, length, drop, replicate};
ghost use Rattle.space_group.specs.Generated.{outcome_of};
ghost use Rattle.space_group.specs.NumberGrowth.{unit_number, generator_number};
ghost use Rattle.space_group.specs.Slots.{group_answer};
ghost use Rattle.space_group.specs.Heads.{head_by, Laid};

use crate::refusal::Refusal;
use crate::traverse::{IDENTITY, generator_number, listed};
use crate::{Answer, SpaceGroup};
use centering::Centering;
use operation::Operation;
use operation::product::identity;
use packed_operation::said;

// An answer but for its slots.
#[derive(Clone, Copy)]
struct Head {
    answer: Answer,
    centering: Centering,
    count: usize,
    generators: usize,
}

fn head_of(c: Centering, n: usize, listed: Result<usize, Refusal>) -> Head
    ensures { result ≡ head_by c n listed }
{
    match listed {
        Ok(count) => Head {
            answer: Answer::Group,
            centering: c,
            count,
            generators: n,
        },
        Err(refusal) => Head {
            answer: Answer::Refused(refusal),
            centering: Centering::P,
            count: 0,
            generators: 0,
        },
    }
}

// The numbers of the generators, in the first slots. That of generators with flags takes these too, so one function for both would be no plainer.
fn generator_numbers(generators: &[Operation], numbers: &mut [u64])
    requires { length generators.now ≤ length numbers.old }
    ensures { numbers.new ≡ map generator_number generators.now ++ drop (length generators.now) numbers.old }
{
    for i in 0..generators.len() {
        numbers[i] = generator_number(generators[i]);
    }
}

// What the generators make: the list of its numbers in the lent slots and the indices of the products, or why there is none and no indices.
fn laid(
    c: Centering,
    generators: &[Operation],
    numbers: &mut [u64],
    steps: &mut [u8],
) -> Result<usize, Refusal>
    requires few { length generators.now ≤ 9 }
    requires slots { numbers.old ≡ replicate 48 unit_number }
    requires clear { steps.old ≡ replicate 432 0 }
    ensures { Laid (outcome_of c generators.now) result numbers.new steps.new }
{
    let mut factors = [0u64; 9];
    generator_numbers(generators, &mut factors);
    let ended = listed(c, generators, &factors[..generators.len()], numbers, steps);
    if ended.is_err() {
        steps.fill(0);
    }
    ended
}

// The group that at most nine generators make: a list of numbers while it grows, laid out once as operations. Put into its caller, it would keep its slots on
// the stack while the text is read.
#[inline(never)]
pub(crate) fn group_of(c: Centering, generators: &[Operation]) -> SpaceGroup
    requires { length generators.now ≤ 9 }
    ensures { result ≡ group_answer c generators.now }
{
    let mut numbers = [IDENTITY; 48];
    let mut steps = [0u8; 432];
    let ended = laid(c, generators, &mut numbers, &mut steps);
    let Head {
        answer,
        centering,
        count,
        generators,
    } = head_of(c, generators.len(), ended);
    let mut operations = [identity(); 48];
    for k in 0..count {
        operations[k] = said(numbers[k]);
    }
    SpaceGroup {
        answer,
        centering,
        count,
        operations,
        generators,
        steps,
    }
}
