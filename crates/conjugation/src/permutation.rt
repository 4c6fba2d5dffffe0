// The permutation of a subgroup's members by an element of its normalizer.
// Ported from subgroup/finite_group.rs of moyo 0.21.0 (`normalizer_action`), and changed: one element at a time, into a lent list of bytes.
ghost use Rattle.std.specs.Prelude.{◌≡◌, ◌++◌, ◌<◌, ◌≤◌, ◌^◌, length, drop};
ghost use Rattle.std.specs.Int.Count.{ones, ones_in};
ghost use Rattle.subgroup_laws.specs.Permutations.{permutation_of};
ghost use Rattle.subgroup_laws.specs.Table.{product, GroupTable};
ghost use Rattle.conjugation.specs.Answers.{permutation_answer, permutation_bytes};

use super::subgroup::{cell, is_subgroup};
use element_sets::sets::contains;
use table_check::Refusal;
use table_products::{conjugate_set, inverse};

// A member's position: how many members are lower.
fn position(s: u64, y: usize) -> u8
    requires { y < 64 }
    ensures { result ≡ ones_in y s }
{
    u64::count_ones(s % (1u64 << y)) as u8
}

// The positions of the g⁻¹ x g, for the members x of s in ascending order.
fn permute(list: &mut [u8], t: &[u8], n: usize, e: usize, s: u64, g: usize)
    requires { (GroupTable n t.now e) × (s < 2 ^ n) × (g < n) × (ones s ≤ length list.old) }
    ensures { list.new ≡ permutation_of n (product n t.now) e s g ++ drop (ones s) list.old }
{
    let back = inverse(t, n, e, g);
    let mut i = 0usize;
    for x in 0..n {
        if contains(s, x) {
            let y = cell(t, n, cell(t, n, back, x), g);
            list[i] = position(s, y);
            i += 1;
        }
    }
}

pub(crate) fn permutation_in(
    list: &mut [u8],
    t: &[u8],
    n: usize,
    e: usize,
    s: u64,
    g: usize,
) -> Result<u64, Refusal>
    requires { GroupTable n t.now e }
    ensures { (result ≡ permutation_answer n (product n t.now) e s g list.old)
        × (list.new ≡ permutation_bytes n (product n t.now) e s g list.old) }
{
    if !is_subgroup(t, n, e, s) {
        return Err(Refusal::Subgroup);
    }
    if n <= g {
        return Err(Refusal::Element);
    }
    if conjugate_set(t, n, e, s, g) != s {
        return Err(Refusal::Normalizer);
    }
    let count = u64::count_ones(s) as usize;
    if list.len() < count {
        list.fill(0);
        return Err(Refusal::Slots);
    }
    permute(list, t, n, e, s, g);
    Ok(count as u64)
}
