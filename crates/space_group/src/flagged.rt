// The group of generators with flags (time reversals): its list as numbers in lent slots, or why there is none. The traversal is that of plain generators;
// a rotation may be listed once with the flag and once without it, so the limit is 96. Ported from `MagneticHallSymbol` of data/hall_symbol.rs of moyo
// 0.21.0, and changed: numbers in lent slots, and refusals.
ghost use Rattle.std.specs.Prelude.{◌≡◌, ◌++◌, map, ◌≤◌, length, take, drop};
ghost use Rattle.group_growth.specs.Flagged.{flagged_by};
ghost use Rattle.space_group.specs.FlaggedGenerators.{with_flags, flagged_number};
ghost use Rattle.space_group.specs.FlaggedOutcomes.{number_outcome, answer_by, slots_by};

use crate::refusal::Refusal;
use crate::traverse::{FLAG, IDENTITY, generator_number, listed};
use centering::Centering;
use operation::Operation;

fn flagged_number(g: Operation, flag: bool) -> u64
    ensures { result ≡ flagged_number (flagged_by flag g) }
{
    let plain = generator_number(g);
    if flag { plain + FLAG } else { plain }
}

// The numbers of the generators, each with its flag, in the first slots.
fn flagged_numbers(generators: &[Operation], flags: &[bool], numbers: &mut [u64])
    requires { (length generators.now ≡ length flags.now) × (length generators.now ≤ length numbers.old) }
    ensures { numbers.new ≡ map flagged_number (with_flags generators.now flags.now) ++ drop (length generators.now) numbers.old }
{
    for i in 0..generators.len() {
        numbers[i] = flagged_number(generators[i], flags[i]);
    }
}

// The group of a lattice and the first n of nine generators with their flags, or of all where n is over 9. The slots hold the list from their front, and
// behind it, or where there is no group, the identity: that is written in one place, behind the list.
pub fn flagged_group(
    c: Centering,
    n: usize,
    generators: [Operation; 9],
    flags: [bool; 9],
    numbers: &mut [u64; 96],
) -> Result<usize, Refusal>
    ensures { (result ≡ answer_by (number_outcome c (with_flags (take n generators) (take n flags))))
        × (numbers.new ≡ slots_by (number_outcome c (with_flags (take n generators) (take n flags)))) }
{
    let used = n.min(9);
    let mut factors = [0u64; 9];
    flagged_numbers(&generators[..used], &flags[..used], &mut factors);
    numbers[0] = IDENTITY;
    let mut steps = [0u8; 864];
    let ended = listed(
        c,
        &generators[..used],
        &factors[..used],
        numbers,
        &mut steps,
    );
    numbers[ended.unwrap_or(0)..].fill(IDENTITY);
    match ended {
        Ok(count) => Ok(count),
        Err(refusal) => Err(refusal),
    }
}
