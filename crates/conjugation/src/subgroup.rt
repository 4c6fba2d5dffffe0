// Whether a set is a subgroup, its conjugate, and its normalizer.
// Ported from subgroup/finite_group.rs of moyo 0.21.0 (`conjugate`, `normalizer_action`), and changed: sets as numbers, any number may be given.
ghost use Rattle.std.specs.Prelude.{◌≡◌, true, cond, ◌<◌, ◌^◌};
ghost use Rattle.laws.specs.Sets.{member};
ghost use Rattle.subgroup_laws.specs.Subsets.{holds_row, is_subgroup, normalizer_of};
ghost use Rattle.subgroup_laws.specs.Table.{product, Cells, GroupTable};
ghost use Rattle.conjugation.specs.Answers.{conjugate_answer, normalizer_answer};

use element_sets::sets::contains;
use table_check::Refusal;
use table_products::conjugate_set;

// The product of i and j.
pub(crate) fn cell(t: &[u8], n: usize, i: usize, j: usize) -> usize
    requires { (Cells n t.now) × (i < n) × (j < n) }
    ensures { (result ≡ product n t.now i j) × (result < n) }
{
    t[i * n + j] as usize
}

// Whether s holds x y, if it holds y.
fn holds_product(t: &[u8], n: usize, s: u64, x: usize, y: usize) -> bool
    requires { (Cells n t.now) × (x < n) × (y < n) }
    ensures { result ≡ cond (member s y) (member s (product n t.now x y)) true }
{
    !contains(s, y) || contains(s, cell(t, n, x, y))
}

// Whether s holds the products of x and its members.
fn holds_row(t: &[u8], n: usize, s: u64, x: usize) -> bool
    requires { (Cells n t.now) × (x < n) }
    ensures { result ≡ holds_row n (product n t.now) s x }
{
    for y in 0..n {
        if !holds_product(t, n, s, x, y) {
            return false;
        }
    }
    true
}

// The same, if x is a member.
fn holds_products(t: &[u8], n: usize, s: u64, x: usize) -> bool
    requires { (Cells n t.now) × (x < n) }
    ensures { result ≡ cond (member s x) (holds_row n (product n t.now) s x) true }
{
    !contains(s, x) || holds_row(t, n, s, x)
}

pub(crate) fn is_subgroup(t: &[u8], n: usize, e: usize, s: u64) -> bool
    requires { (Cells n t.now) × (e < n) }
    ensures { result ≡ is_subgroup n (product n t.now) e s }
{
    if 1u64 << n <= s || !contains(s, e) {
        return false;
    }
    for x in 0..n {
        if !holds_products(t, n, s, x) {
            return false;
        }
    }
    true
}

// The elements that conjugate s to itself.
fn normalizer_set(t: &[u8], n: usize, e: usize, s: u64) -> u64
    requires { (GroupTable n t.now e) × (s < 2 ^ n) }
    ensures { result ≡ normalizer_of n (product n t.now) e s }
{
    let mut found = 0u64;
    for g in 0..n {
        if conjugate_set(t, n, e, s, g) == s {
            found += 1u64 << g;
        }
    }
    found
}

pub(crate) fn conjugate_in(t: &[u8], n: usize, e: usize, s: u64, g: usize) -> Result<u64, Refusal>
    requires { GroupTable n t.now e }
    ensures { result ≡ conjugate_answer n (product n t.now) e s g }
{
    if !is_subgroup(t, n, e, s) {
        return Err(Refusal::Subgroup);
    }
    if n <= g {
        return Err(Refusal::Element);
    }
    Ok(conjugate_set(t, n, e, s, g))
}

pub(crate) fn normalizer_in(t: &[u8], n: usize, e: usize, s: u64) -> Result<u64, Refusal>
    requires { GroupTable n t.now e }
    ensures { result ≡ normalizer_answer n (product n t.now) e s }
{
    if !is_subgroup(t, n, e, s) {
        return Err(Refusal::Subgroup);
    }
    Ok(normalizer_set(t, n, e, s))
}
