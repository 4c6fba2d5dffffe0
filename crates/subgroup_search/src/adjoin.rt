// Adjoining an element to a subgroup, by cosets.
// Ported from subgroup/finite_group.rs of moyo 0.21.0 (`generated_subgroup`), and changed: sets as numbers, cosets instead of all products.
ghost use Rattle.std.specs.Prelude.{◌≡◌, ℕ, ◌<◌, ◌≤◌, ◌^◌};
ghost use Rattle.subgroup_laws.specs.Adjoin.{Forced, Growing};
ghost use Rattle.subgroup_laws.specs.Subsets.{Subgroup, image_of};
ghost use Rattle.subgroup_laws.specs.Table.{product, Cells, GroupTable};
ghost use Rattle.subgroup_search.specs.Growth.{Taken, Swept, Adjoined};

use element_sets::sets::{Members, contains, lowest, with_element, within, without};

// A set that grows, with the representatives that wait to be followed.
#[derive(Clone, Copy)]
pub(crate) struct Growth {
    pub(crate) set: u64,
    pub(crate) waiting: u64,
}

// The product of i and j.
fn cell(t: &[u8], n: usize, i: usize, j: usize) -> usize
    requires { (Cells n t.now) × (i < n) × (j < n) }
    ensures { (result ≡ product n t.now i j) × (result < n) }
{
    t[i * n + j] as usize
}

// The right coset s b: the products x b of the members x of s.
pub(crate) fn coset(t: &[u8], n: usize, s: u64, b: usize) -> u64
    requires { (Cells n t.now) × (s < 2 ^ n) × (b < n) }
    ensures { result ≡ image_of n (λ (x : ℕ). product n t.now x b) s }
{
    let mut found = 0u64;
    for x in Members::of(s) {
        found = with_element(found, cell(t, n, x, b));
    }
    found
}

// The coset h p joins the set, and p waits, if p is new; none where an element below the bound would come in.
fn taken(
    t: &[u8],
    n: usize,
    e: usize,
    h: u64,
    bound: usize,
    old: Growth,
    p: usize,
) -> Option<Growth>
    requires { (GroupTable n t.now e) × (h < 2 ^ n) × (p < n) × (bound ≤ n) }
    ensures { Taken n (product n t.now) e h bound old.set old.waiting p result }
{
    if contains(old.set, p) {
        return Some(old);
    }
    let joined = coset(t, n, h, p);
    let low = joined % (1u64 << bound);
    if !within(low, h) {
        return None;
    }
    Some(Growth {
        set: old.set | joined,
        waiting: with_element(old.waiting, p),
    })
}

// The representative r is followed by g and by the members of h.
fn swept(t: &[u8], n: usize, e: usize, h: u64, g: usize, old: Growth, r: usize) -> Option<Growth>
    requires { (GroupTable n t.now e) × (Subgroup n (product n t.now) e h) × (g < n)
        × (Forced n (product n t.now) e h g r)
        × (Growing n (product n t.now) e h g g old.set old.waiting (λ (x : ℕ). x ≡ r)) }
    ensures { Swept n (product n t.now) e h g g old.set old.waiting result }
{
    let mut grown = taken(t, n, e, h, g, old, cell(t, n, r, g))?;
    for x in Members::of(h) {
        grown = taken(t, n, e, h, g, grown, cell(t, n, r, x))?;
    }
    Some(grown)
}

// The least subgroup that holds h and g; or none if it holds an element below g that h does not hold: the search finds it elsewhere.
pub(crate) fn adjoin(t: &[u8], n: usize, e: usize, h: u64, g: usize) -> Option<u64>
    requires { (GroupTable n t.now e) × (Subgroup n (product n t.now) e h) × (g < n) }
    ensures { Adjoined n (product n t.now) e h g g result }
{
    let mut grown = Growth {
        set: h,
        waiting: 1u64 << e,
    };
    // More may wait after each turn, so this is no `for` over those that wait.
    while 0 < grown.waiting {
        let r = lowest(grown.waiting);
        let rest = Growth {
            set: grown.set,
            waiting: without(grown.waiting, r),
        };
        grown = swept(t, n, e, h, g, rest, r)?;
    }
    Some(grown.set)
}
