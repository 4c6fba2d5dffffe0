// Whether a table is associative, told by its generators.
// New in the port: `from_table` of moyo 0.21.0 does not look at associativity.
ghost use Rattle.std.specs.Prelude.{◌≡◌, ◌<◌, ◌^◌};
ghost use Rattle.subgroup_laws.specs.Generators.{Generators, widened};
ghost use Rattle.subgroup_laws.specs.GroupLaws.{TwoSidedIdentity};
ghost use Rattle.subgroup_laws.specs.Groups.{associates};
ghost use Rattle.subgroup_laws.specs.Table.{product, Cells};

use super::table::cell;
use element_sets::sets::{Members, lowest, outside, rest_of, with_element, without};
use table_products::image;

// A set with its products by j on the right, and then on the left.
fn widen(t: &[u8], n: usize, e: usize, s: u64, j: usize) -> u64
    requires { (Cells n t.now) × (s < 2 ^ n) × (e < n) × (j < n) }
    ensures { result ≡ widened n (product n t.now) e s j }
{
    let right = s | image(t, n, s, e, j);
    right | image(t, n, right, j, e)
}

// A set of elements of which all are products.
fn generators(t: &[u8], n: usize, e: usize) -> u64
    requires { (Cells n t.now) × (TwoSidedIdentity n (product n t.now) e) }
    ensures { (Generators n (product n t.now) e result) × (result < 2 ^ n) }
{
    let mut found = 0u64;
    let mut reached = 1u64 << e;
    let mut left = rest_of(n, reached);
    // What is left loses more than the element taken, so this is no `for` over the members.
    while 0 < left {
        let j = lowest(left);
        let rest = without(left, j);
        found = with_element(found, j);
        reached = widen(t, n, e, reached, j);
        left = outside(rest, reached);
    }
    found
}

// The middle factor runs over the generators only.
pub(crate) fn is_associative(t: &[u8], n: usize, e: usize) -> bool
    requires { (Cells n t.now) × (TwoSidedIdentity n (product n t.now) e) }
    ensures { result ≡ associates n (product n t.now) }
{
    for j in Members::of(generators(t, n, e)) {
        for i in 0..n {
            let ij = cell(t, n, i, j);
            for k in 0..n {
                let jk = cell(t, n, j, k);
                if cell(t, n, ij, k) != cell(t, n, i, jk) {
                    return false;
                }
            }
        }
    }
    true
}
