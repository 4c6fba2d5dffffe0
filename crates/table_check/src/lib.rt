// The check that bytes are the table of a group: refusals 21 to 25, or the group's identity.
// Ported from subgroup/finite_group.rs of moyo 0.21.0 (`from_table`), and changed: the order is limited and associativity is checked.
#![tactic(auto)]

ghost use Rattle.std.specs.Prelude.{◌≡◌};
ghost use Rattle.table_check.specs.CheckAnswers.{check_of};

use associativity::is_associative;
use table::{good_cells, has_inverses, identity_of};

mod associativity;
mod table;

// Why there is no answer: the refusals 21 to 29.
#[derive(Clone, Copy)]
pub enum Refusal {
    Order,
    Cells,
    Identity,
    Inverse,
    Associativity,
    Slots,
    Subgroup,
    Element,
    Normalizer,
}

// Refusals 21 to 25 in their order, or the identity of the group.
pub fn from_table(n: usize, t: &[u8]) -> Result<usize, Refusal>
    ensures { result ≡ check_of n t.now }
{
    if n == 0 || 48 < n {
        return Err(Refusal::Order);
    }
    if !good_cells(t, n) {
        return Err(Refusal::Cells);
    }
    let Some(e) = identity_of(t, n) else {
        return Err(Refusal::Identity);
    };
    if !has_inverses(t, n, e) {
        return Err(Refusal::Inverse);
    }
    if !is_associative(t, n, e) {
        return Err(Refusal::Associativity);
    }
    Ok(e)
}
