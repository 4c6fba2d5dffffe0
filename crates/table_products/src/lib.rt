// Products in a table of bytes: of a set by elements on both sides, inverses, and conjugates of sets. Any bytes may be lent: what other rooms call
// looks whether there are n² of them and whether it is asked about elements, and a cell that is no element ends the work.
// Ported from subgroup/finite_group.rs of moyo 0.21.0 (`conjugate`), and changed: sets as numbers.
#![tactic(auto)]

ghost use Rattle.std.specs.Prelude.{◌≡◌, true, ℕ, ◌<◌, ◌^◌};
ghost use Rattle.subgroup_laws.specs.Groups.{is_inverse, inverse_of};
ghost use Rattle.subgroup_laws.specs.Subsets.{image_of, conjugate_of};
ghost use Rattle.subgroup_laws.specs.Table.{product, Cells, GroupTable};
ghost use Rattle.table_products.specs.Sizes.{Sized};

use element_sets::sets::{Members, with_element};

// The product of i and j.
fn cell(t: &[u8], n: usize, i: usize, j: usize) -> usize
    requires { (Sized n t.now) × (i < n) × (j < n) }
    ensures { result ≡ product n t.now i j }
{
    t[i * n + j] as usize
}

// Whether there are n² cells, and s is a set of elements.
fn is_sized(t: &[u8], n: usize, s: u64) -> bool
    ensures { (result ≡ true → (Sized n t.now) × (s < 2 ^ n)) × (Cells n t.now → s < 2 ^ n → result ≡ true) }
{
    n <= 48 && t.len() == n * n && s < 1u64 << n
}

// The set of (a x) b for the members x of s.
fn image_in(t: &[u8], n: usize, s: u64, a: usize, b: usize) -> u64
    requires { (Sized n t.now) × (s < 2 ^ n) × (a < n) × (b < n) }
    ensures { Cells n t.now
        → result ≡ image_of n (λ (x : ℕ). product n t.now (product n t.now a x) b) s }
{
    let mut found = 0u64;
    for x in Members::of(s) {
        let y = cell(t, n, a, x);
        if n <= y {
            return 0;
        }
        found = with_element(found, cell(t, n, y, b));
    }
    found
}

pub fn image(t: &[u8], n: usize, s: u64, a: usize, b: usize) -> u64
    ensures { Cells n t.now → s < 2 ^ n → a < n → b < n
        → result ≡ image_of n (λ (x : ℕ). product n t.now (product n t.now a x) b) s }
{
    if is_sized(t, n, s) && a < n && b < n {
        image_in(t, n, s, a, b)
    } else {
        0
    }
}

fn is_inverse(t: &[u8], n: usize, e: usize, x: usize, y: usize) -> bool
    requires { (Sized n t.now) × (x < n) × (y < n) }
    ensures { result ≡ is_inverse (product n t.now) e x y }
{
    cell(t, n, x, y) == e && cell(t, n, y, x) == e
}

// The first two-sided inverse of x, or n.
fn inverse_in(t: &[u8], n: usize, e: usize, x: usize) -> usize
    requires { (Sized n t.now) × (x < n) }
    ensures { result ≡ inverse_of n (product n t.now) e x }
{
    for y in 0..n {
        if is_inverse(t, n, e, x, y) {
            return y;
        }
    }
    n
}

pub fn inverse(t: &[u8], n: usize, e: usize, x: usize) -> usize
    ensures { Cells n t.now → x < n → result ≡ inverse_of n (product n t.now) e x }
{
    if is_sized(t, n, 0) && x < n {
        inverse_in(t, n, e, x)
    } else {
        n
    }
}

// The set of the g⁻¹ x g for the members x of s.
pub fn conjugate_set(t: &[u8], n: usize, e: usize, s: u64, g: usize) -> u64
    ensures { GroupTable n t.now e → s < 2 ^ n → g < n → result ≡ conjugate_of n (product n t.now) e s g }
{
    image(t, n, s, inverse(t, n, e, g), g)
}
