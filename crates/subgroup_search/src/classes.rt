// The first conjugate of a subgroup in list order, which stands for its class.
// Ported from subgroup/finite_group.rs of moyo 0.21.0 (`conjugate`), and changed: sets as numbers.
ghost use Rattle.subgroup_laws.specs.Representatives.{FirstOfAll, Represented};
ghost use Rattle.subgroup_laws.specs.Subsets.{Subgroup};
ghost use Rattle.subgroup_laws.specs.Table.{product, GroupTable};

use super::adjoin::coset;
use element_sets::sets::{earlier_of, lowest, outside, rest_of};
use table_products::conjugate_set;

// The first conjugate of a subgroup. One element of each coset is tried: the others conjugate to the same set.
fn first_conjugate(t: &[u8], n: usize, e: usize, s: u64) -> u64
    requires { (GroupTable n t.now e) × (Subgroup n (product n t.now) e s) }
    ensures { FirstOfAll n (product n t.now) e s result }
{
    let mut best = s;
    let mut left = rest_of(n, s);
    // What is left loses a whole coset, so this is no `for` over the members.
    while 0 < left {
        let g = lowest(left);
        best = earlier_of(conjugate_set(t, n, e, s, g), best);
        left = outside(left, coset(t, n, s, g));
    }
    best
}

// The set itself; or, where classes are asked for, the first of its conjugates.
// A flag and no closure: which sets are listed, `chosen` in the clauses of the whole search, is said by the same flag.
pub(crate) fn representative(t: &[u8], n: usize, e: usize, s: u64, classes: bool) -> u64
    requires { (GroupTable n t.now e) × (Subgroup n (product n t.now) e s) }
    ensures { Represented n (product n t.now) e classes s result }
{
    if classes {
        first_conjugate(t, n, e, s)
    } else {
        s
    }
}
