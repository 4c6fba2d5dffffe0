// The tests of a table that come before associativity: cells, identity, inverses.
// Ported from subgroup/finite_group.rs of moyo 0.21.0 (`from_table`), and changed: one function a test.
ghost use Rattle.std.specs.Prelude.{◌≡◌, ◌<◌, ◌≤◌, MatchOption};
ghost use Rattle.subgroup_laws.specs.Groups.{is_identity, identity_of, has_inverses};
ghost use Rattle.subgroup_laws.specs.Table.{product, Cells, good_cells};

use table_products::inverse;

// The product of i and j. Each room has a function of its own for this: a test a cell, which a public one would need, is dear in the innermost loops.
pub(crate) fn cell(t: &[u8], n: usize, i: usize, j: usize) -> usize
    requires { (Cells n t.now) × (i < n) × (j < n) }
    ensures { (result ≡ product n t.now i j) × (result < n) }
{
    t[i * n + j] as usize
}

// Whether all cells are there, each below n.
pub(crate) fn good_cells(t: &[u8], n: usize) -> bool
    requires { n ≤ 48 }
    ensures { result ≡ good_cells n t.now }
{
    t.len() == n * n && t.iter().all(|c| (*c as usize) < n)
}

fn is_identity(t: &[u8], n: usize, e: usize) -> bool
    requires { (Cells n t.now) × (e < n) }
    ensures { result ≡ is_identity n (product n t.now) e }
{
    for x in 0..n {
        if cell(t, n, e, x) != x || cell(t, n, x, e) != x {
            return false;
        }
    }
    true
}

// The first two-sided identity.
pub(crate) fn identity_of(t: &[u8], n: usize) -> Option<usize>
    requires { Cells n t.now }
    ensures { MatchOption result (identity_of n (product n t.now) ≡ n) (λ e. (e < n) × (e ≡ identity_of n (product n t.now))) }
{
    for e in 0..n {
        if is_identity(t, n, e) {
            return Some(e);
        }
    }
    None
}

pub(crate) fn has_inverses(t: &[u8], n: usize, e: usize) -> bool
    requires { Cells n t.now }
    ensures { result ≡ has_inverses n (product n t.now) e }
{
    for x in 0..n {
        if n <= inverse(t, n, e, x) {
            return false;
        }
    }
    true
}
