// The table of a symbol's group, made from the steps of its traversal: no product is formed and no operation is searched for.
// Ported from `from_operations` of subgroup/finite_group.rs of moyo 0.21.0, and changed: from a text, modulo the lattice, and without a search.
ghost use Rattle.std.specs.Prelude.{◌≡◌, ◌≤◌, ◌*◌, length, take};
ghost use Rattle.symbol_group.specs.Answers.{order_of};
ghost use Rattle.group_table.specs.Tables.{table_of, symbol_cells, overlaid, laid, symbol_table};
ghost use Rattle.group_table.specs.StepTables.{Traversed, AllCome, RowReady, RowFilled};
ghost use Rattle.group_table.specs.SymbolSteps.{TableBySteps};

use crate::SymbolTable;
use symbol_group::refusal::Refusal;
use symbol_group::{Answer, SymbolGroup};

// The parent of an operation: the index of an earlier operation, and that of the generator that leads from there to it.
#[derive(Clone, Copy)]
struct Parent {
    earlier: u8,
    generator: u8,
}

// The parent of each operation but the first. A step that stands before the steps of the operation that it leads to comes from an earlier one.
fn find_parents(steps: &[u8; 432], count: usize, generators: usize) -> [Parent; 48]
    requires { Traversed count generators steps.now }
    ensures { AllCome count generators steps.now result }
{
    let mut parents = [Parent {
        earlier: 0,
        generator: 0,
    }; 48];
    for at in 0..count * generators {
        let to = steps[at] as usize;
        if at < to * generators {
            parents[to] = Parent {
                earlier: (at / generators) as u8,
                generator: (at % generators) as u8,
            };
        }
    }
    parents
}

// The products of operation i, each by the step that leads on from the product with its right factor's parent.
fn fill_row(
    cells: &mut [u8],
    steps: &[u8; 432],
    parents: &[Parent; 48],
    count: usize,
    generators: usize,
    i: usize,
)
    requires { RowReady count generators i steps.now parents.now cells.old }
    ensures { RowFilled count generators i steps.now cells.old cells.new }
{
    let row = i * count;
    cells[row] = i as u8;
    for j in 1..count {
        let parent = parents[j];
        let left = cells[row + parent.earlier as usize] as usize;
        cells[row + j] = steps[left * generators + parent.generator as usize];
    }
}

// The cells of an accepted symbol's table, row by row.
fn fill_rows(cells: &mut [u8], g: SymbolGroup)
    requires { (TableBySteps g) × (g.count * g.count ≤ length cells.old) }
    ensures { cells.new ≡ overlaid (table_of g.centering (take g.count g.operations)) cells.old }
{
    let steps = g.steps;
    let count = g.count;
    let generators = g.generators;
    let parents = find_parents(&steps, count, generators);
    for i in 0..count {
        fill_row(cells, &steps, &parents, count, generators, i);
    }
}

// The order, and the cells into the front of lent slots; a refused symbol leaves the slots as they are, and so does one whose cells they cannot hold.
pub fn fill_cells(text: &[u8], cells: &mut [u8]) -> Result<usize, Refusal>
    ensures { (result ≡ order_of text.now)
        × (cells.new ≡ laid (symbol_cells text.now) cells.old) }
{
    let g = SymbolGroup::new(text);
    let answer = g.answer;
    match answer {
        Answer::Group => {
            let order = g.count;
            if cells.len() < order * order {
                return Ok(order);
            }
            fill_rows(cells, g);
            Ok(order)
        }
        Answer::Refused(refusal) => Err(refusal),
    }
}

pub fn from_symbol(text: &[u8]) -> SymbolTable
    ensures { result ≡ symbol_table text.now }
{
    let mut cells = [0u8; 2304];
    let found = fill_cells(text, &mut cells);
    match found {
        Ok(order) => SymbolTable {
            answer: Answer::Group,
            order,
            cells,
        },
        Err(refusal) => SymbolTable {
            answer: Answer::Refused(refusal),
            order: 0,
            cells,
        },
    }
}
