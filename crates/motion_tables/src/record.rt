// The table of a record's group in lent cells, and the record's refusal in numbers.
// Ported from subgroup/finite_group.rs of moyo 0.21.0 (`FiniteGroup`), and changed: from the record.
ghost use Rattle.std.specs.Prelude.{◌≡◌};
ghost use Rattle.group_table.specs.Tables.{order_of_record, record_cells, laid};
ghost use Rattle.motion_tables.specs.Answers.{record_refusal, of_record, filled_from};

use super::{Filled, Refusal};
use group_table::record::fill_cells;

// The table into the cells; they stay as they are on refusal, or if they cannot hold it.
pub fn table(bytes: &[u8], cells: &mut [u8]) -> Filled
    ensures { (result ≡ filled_from (of_record (order_of_record bytes.now)))
        × (cells.new ≡ laid (record_cells bytes.now) cells.old) }
{
    match fill_cells(bytes, cells) {
        Ok(order) => {
            let end = order * order;
            Filled {
                source: Ok(order),
                end,
            }
        }
        Err(why) => Filled {
            source: Err(in_numbers(why)),
            end: 0,
        },
    }
}

// A record is refused as a whole: there is no place in it.
pub fn in_numbers(why: group_record::Refusal) -> Refusal
    ensures { result ≡ record_refusal why }
{
    Refusal {
        number: why.number(),
        place: 0,
    }
}
