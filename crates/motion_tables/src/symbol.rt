// The table of a symbol's group in lent cells, and the symbol's refusal in numbers.
// Ported from subgroup/finite_group.rs of moyo 0.21.0 (`FiniteGroup`), and changed: from the text.
ghost use Rattle.std.specs.Prelude.{◌≡◌};
ghost use Rattle.symbol_group.specs.Answers.{order_of};
ghost use Rattle.group_table.specs.Tables.{symbol_cells, laid};
ghost use Rattle.motion_tables.specs.Answers.{symbol_refusal, of_symbol, filled_from};

use super::{Filled, Refusal};
use group_table::symbol::fill_cells;

// The table into the cells; they stay as they are on refusal, or if they cannot hold it.
pub fn table(text: &[u8], cells: &mut [u8]) -> Filled
    ensures { (result ≡ filled_from (of_symbol (order_of text.now)))
        × (cells.new ≡ laid (symbol_cells text.now) cells.old) }
{
    match fill_cells(text, cells) {
        Ok(order) => {
            let end = order * order;
            Filled {
                source: Ok(order),
                end,
            }
        }
        Err(refusal) => Filled {
            source: Err(in_numbers(refusal)),
            end: 0,
        },
    }
}

pub fn in_numbers(refusal: symbol_group::refusal::Refusal) -> Refusal
    ensures { result ≡ symbol_refusal refusal }
{
    Refusal {
        number: refusal.number(),
        place: refusal.place(),
    }
}
