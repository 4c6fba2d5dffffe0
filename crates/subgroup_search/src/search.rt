// The search for subgroups, or for one of each class, in the lent slots.
// Ported from subgroup/finite_group.rs of moyo 0.21.0 (`enumerate_subgroups`), and changed: the list is kept in order, in lent slots.
ghost use Rattle.std.specs.Prelude.{◌≡◌, false, ◌<◌, ◌≤◌, ◌*◌, length};
ghost use Rattle.laws.specs.Sets.{member};
ghost use Rattle.subgroup_laws.specs.ListedSets.{listed};
ghost use Rattle.subgroup_laws.specs.Lists.{chosen};
ghost use Rattle.subgroup_laws.specs.Subsets.{Subgroup};
ghost use Rattle.subgroup_laws.specs.Table.{product, GroupTable};
ghost use Rattle.subgroup_search.specs.Answers.{list_answer, list_bytes};
ghost use Rattle.subgroup_search.specs.SearchLoop.{ExtendedBy, ExtendedByAll, SearchResult};

use super::adjoin::{adjoin, coset};
use super::classes::representative;
use element_sets::sets::{lowest, outside, rest_of};
use element_sets::slots::{Insertion, clear, insert, set_slot, slot};
use table_check::Refusal;

// The extension of h by g, which is no member, is put into the list, in front of h. The answer is how many sets the list then has, or none
// where there are more than slots.
fn extend_by(
    sets: &mut [u8],
    t: &[u8],
    n: usize,
    e: usize,
    classes: bool,
    count: usize,
    h: u64,
    g: usize,
) -> Option<usize>
    requires { (GroupTable n t.now e) × (Subgroup n (product n t.now) e h) × (g < n) × (member h g ≡ false)
        × (8 * count ≤ length sets.old) }
    ensures { ExtendedBy n (product n t.now) e classes h g count sets.old sets.new result }
{
    let Some(k) = adjoin(t, n, e, h, g) else {
        return Some(count);
    };
    let m = representative(t, n, e, k, classes);
    match insert(sets, count, m) {
        Insertion::Present => Some(count),
        Insertion::Full => None,
        Insertion::Added => Some(count + 1),
    }
}

// All extensions of h are put into the list, in front of h. The lowest element of each coset is tried: the others give the same.
fn extend(
    sets: &mut [u8],
    t: &[u8],
    n: usize,
    e: usize,
    classes: bool,
    count: usize,
    h: u64,
) -> Option<usize>
    requires { (GroupTable n t.now e) × (Subgroup n (product n t.now) e h) × (8 * count ≤ length sets.old) }
    ensures { ExtendedByAll n (product n t.now) e classes h count sets.old sets.new result }
{
    let mut found = count;
    let mut left = rest_of(n, h);
    // What is left loses a whole coset, so this is no `for` over the members.
    while 0 < left {
        let g = lowest(left);
        left = outside(left, coset(t, n, h, g));
        found = extend_by(sets, t, n, e, classes, found, h, g)?;
    }
    Some(found)
}

// The list is built in the slots, from the trivial subgroup on; the sets behind the last `done` are settled.
pub(crate) fn search(sets: &mut [u8], t: &[u8], n: usize, e: usize, classes: bool) -> Option<usize>
    requires { GroupTable n t.now e }
    ensures { SearchResult n (product n t.now) e classes sets.old sets.new result }
{
    if sets.len() < 8 {
        return None;
    }
    set_slot(sets, 0, 1u64 << e);
    let mut count = 1usize;
    let mut done = 0usize;
    // The end moves while the list grows, so this counts by hand.
    while done < count {
        let h = slot(sets, count - 1 - done);
        count = extend(sets, t, n, e, classes, count, h)?;
        done += 1;
    }
    Some(count)
}

// The list in the lent slots, and its length; or 26, and every slot 0.
pub(crate) fn list_sets(
    sets: &mut [u8],
    t: &[u8],
    n: usize,
    e: usize,
    classes: bool,
) -> Result<u64, Refusal>
    requires { GroupTable n t.now e }
    ensures { (result ≡ list_answer (listed n (chosen n (product n t.now) e classes)) sets.old)
        × (sets.new ≡ list_bytes (listed n (chosen n (product n t.now) e classes)) sets.old) }
{
    let Some(count) = search(sets, t, n, e, classes) else {
        let whole = 8 * (sets.len() / 8);
        clear(sets, whole);
        return Err(Refusal::Slots);
    };
    Ok(count as u64)
}
