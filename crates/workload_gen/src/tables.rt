// Drawing the tables.

ghost use Rattle.std.specs.Prelude.{◌≡◌, ◌<◌, replicate, IfOk, OnOk};
ghost use Rattle.std.specs.Option.{ForSome};
ghost use Rattle.workload_gen.specs.Draws.{state_after, numbers_from};
ghost use Rattle.workload_gen.specs.Tables.{prevs_at, state_behind_prevs, table_at, state_behind, drawn_tables};

use crate::draws::Draws;
use star_model::lists::List;
use std::alloc::{AllocError, Global};

/// What is drawn for a table.
#[derive(Drop)]
pub struct DrawnTable {
    /// How many rows it has, 5 to 19.
    pub rows: u64,
    /// How many pages the catalogue says it has, 1 to 4.
    pub pages: u64,
    /// Whether it has an index.
    pub is_indexed: bool,
    /// How many rows the table before has; 1 for the first.
    pub rows_before: u64,
    /// For each row the row of the table before to which it refers; 0 for those of the first.
    pub prevs: List<u64>,
}

fn zeros(alloc: Global, count: u64) -> Result<List<u64>, AllocError>
    ensures { IfOk result (λ numbers. numbers ≡ replicate count 0) }
{
    let mut numbers = List::new(alloc);
    for _zero in 0..count {
        numbers.push(0)?;
    }
    Ok(numbers)
}

// So many numbers, each of so many choices.
fn draw_numbers(
    alloc: Global,
    draws: &mut Draws,
    choices: u64,
    count: u64,
) -> Result<List<u64>, AllocError>
    requires { 0 < choices }
    ensures numbers { IfOk result (λ numbers. numbers
        ≡ numbers_from count choices draws.old.state) }
    ensures state { OnOk result (draws.new.state ≡ state_after count draws.old.state) }
{
    let mut numbers = List::new(alloc);
    for _number in 0..count {
        numbers.push(draws.draw(choices))?;
    }
    Ok(numbers)
}

// To which rows of the table before so many rows refer.
fn draw_prevs(
    alloc: Global,
    draws: &mut Draws,
    before: Option<u64>,
    rows: u64,
) -> Result<List<u64>, AllocError>
    requires { ForSome before (λ rows_before. 0 < rows_before) }
    ensures prevs { IfOk result (λ prevs. prevs ≡ prevs_at before rows draws.old.state) }
    ensures state { OnOk result (draws.new.state
        ≡ state_behind_prevs before rows draws.old.state) }
{
    match before {
        None => zeros(alloc, rows),
        Some(rows_before) => draw_numbers(alloc, draws, rows_before, rows),
    }
}

// The next table, behind one of so many rows where it isn't the first.
fn draw_table(
    alloc: Global,
    draws: &mut Draws,
    before: Option<u64>,
) -> Result<DrawnTable, AllocError>
    requires { ForSome before (λ rows_before. 0 < rows_before) }
    ensures table { IfOk result (λ table. table ≡ table_at before draws.old.state) }
    ensures some_rows { IfOk result (λ table. 0 < table.rows) }
    ensures state { OnOk result (draws.new.state ≡ state_behind before draws.old.state) }
{
    let rows = 5 + draws.draw(15);
    let pages = 1 + draws.draw(4);
    let is_indexed = draws.draw(2) == 1;
    let prevs = draw_prevs(alloc, draws, before, rows)?;
    Ok(DrawnTable {
        rows,
        pages,
        is_indexed,
        rows_before: before.unwrap_or(1),
        prevs,
    })
}

/// The tables of a seed, from the first.
pub fn draw_tables(alloc: Global, seed: u64, size: u8) -> Result<List<DrawnTable>, AllocError>
    ensures { IfOk result (λ tables. tables ≡ drawn_tables seed size) }
{
    let mut draws = Draws::of_seed(seed);
    let mut tables = List::new(alloc);
    let mut before = None;
    for _table in 0..size {
        let table = draw_table(alloc, &mut draws, before)?;
        before = Some(table.rows);
        tables.push(table)?;
    }
    Ok(tables)
}
