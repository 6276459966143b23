// The taking of a query's tables.
ghost use Rattle.std.specs.Prelude.{◌≡◌, ◌<◌, length, replicate, slice_set, None, Some, IfOk};
ghost use Rattle.sb_outside.specs.Shelf.{GoesBy};
ghost use Rattle.star_model.specs.WellFormed.{WellFormedQuery};
ghost use Rattle.table_taking.specs.QueryTables.{tables_of};
ghost use Rattle.table_taking.specs.Taking.{TablesTaken};

use crate::numbers::tables_of;
use crate::one_table::take_table;
use crate::stop::Stop;
use row_steps::Tables;
use row_store::Table;
use sb_outside::Shelf;
use star_model::lists::List;
use star_model::query::Query;
use std::alloc::{AllocError, Global};

// Places for so many tables, of which none is loaded.
fn empty_places(alloc: Global, count: usize) -> Result<Tables, AllocError>
    ensures { IfOk result (λ tables. tables.loaded ≡ replicate count None) }
{
    let mut loaded = List::new(alloc);
    for _place in 0..count {
        loaded.push(None)?;
    }
    Ok(Tables { loaded })
}

fn put_table(tables: &mut Tables, number: u8, table: Table)
    requires { number < length tables.old.loaded }
    ensures { tables.new.loaded ≡ slice_set tables.old.loaded number (Some table) }
{
    if let Some(place) = tables.loaded.get_mut(number as usize) {
        *place = Some(table);
    }
}

/// The tables of the query, in the order of their first quantifiers: each is read by one call and
/// loaded before the next is read. A file may have 67,108,864 bytes.
pub fn take_tables<S: Shelf>(alloc: Global, shelf: &mut S, query: &Query) -> Result<Tables, Stop>
    requires { WellFormedQuery query.now }
    ensures goes { GoesBy (length (tables_of query.now)) (S.state shelf.old) (S.state shelf.new) }
    ensures taken { TablesTaken query.now (S.state shelf.old) (S.state shelf.new) result }
{
    let numbers = tables_of(alloc, query)?;
    let mut tables = empty_places(alloc, query.catalogue.tables.len())?;
    for number in numbers.as_slice() {
        let table = take_table(alloc, shelf, query, *number)?;
        put_table(&mut tables, *number, table);
    }
    Ok(tables)
}
