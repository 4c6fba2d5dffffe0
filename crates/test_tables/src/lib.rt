// The tables of symbols and records by value for C, cell by cell: a test library, so that tests/tables.c can print them for other programs.
#![tactic(auto)]

ghost use Rattle.std.specs.Prelude.{◌≡◌, length};
ghost use Rattle.group_table.specs.Tables.{symbol_table, record_table};
ghost use Rattle.test_tables.specs.Cells.{cell_at};

use group_table::record::from_record;
use group_table::symbol::from_symbol;

#[unsafe(no_mangle)]
pub extern "C" fn symbol_table_order(text: &[u8]) -> u64
    ensures { result ≡ (symbol_table text.now).order }
{
    let table = from_symbol(text);
    table.order as u64
}

#[unsafe(no_mangle)]
pub extern "C" fn symbol_table_cell(text: &[u8], place: usize) -> u64
    ensures { result ≡ cell_at (symbol_table text.now).cells place }
{
    let table = from_symbol(text);
    let cells = table.cells;
    cell_at(&cells, place)
}

#[unsafe(no_mangle)]
pub extern "C" fn record_table_order(bytes: &[u8]) -> u64
    ensures { result ≡ (record_table bytes.now).order }
{
    let table = from_record(bytes);
    table.order as u64
}

#[unsafe(no_mangle)]
pub extern "C" fn record_table_cell(bytes: &[u8], place: usize) -> u64
    ensures { result ≡ cell_at (record_table bytes.now).cells place }
{
    let table = from_record(bytes);
    let cells = table.cells;
    cell_at(&cells, place)
}

// The cell at a place, and 0 where there is no slot.
fn cell_at(cells: &[u8], place: usize) -> u64
    requires { length cells.now ≡ 2304 }
    ensures { result ≡ cell_at cells.now place }
{
    if 2304 <= place {
        return 0;
    }
    cells[place] as u64
}
