// The taking of one table.
ghost use Rattle.std.specs.Prelude.{◌<◌, length};
ghost use Rattle.sb_outside.specs.Shelf.{Goes};
ghost use Rattle.star_model.specs.WellFormed.{WellFormedQuery};
ghost use Rattle.table_taking.specs.OneTable.{TableLoaded, TableTaken};

use crate::lines::{fault_line, long_line};
use crate::names::{file_of, name_of};
use crate::stop::Stop;
use crate::unread::unread_line;
use row_store::{Table, load};
use sb_outside::{RawTable, Shelf, ShelfFault};
use star_model::query::Query;
use std::alloc::Global;

/// The greatest length of a table's file, in bytes.
const LIMIT: usize = 67_108_864;

// The table of this number, from its records.
fn load_table(alloc: Global, query: &Query, number: u8, records: RawTable) -> Result<Table, Stop>
    requires query { WellFormedQuery query.now }
    requires number { number < length query.now.catalogue.tables }
    ensures { TableLoaded query.now number records result }
{
    match load(alloc, &query.catalogue, number, records) {
        Ok(table) => Ok(table),
        Err(fault) => {
            let line = fault_line(alloc, name_of(query, number), fault)?;
            Err(Stop::Refused(line))
        }
    }
}

// The table of this number, read from its file by one call.
pub fn take_table<S: Shelf>(
    alloc: Global,
    shelf: &mut S,
    query: &Query,
    number: u8,
) -> Result<Table, Stop>
    requires query { WellFormedQuery query.now }
    requires number { number < length query.now.catalogue.tables }
    ensures goes { Goes (S.state shelf.old) (S.state shelf.new) }
    ensures taken { TableTaken query.now (S.state shelf.old) (S.state shelf.new) number result }
{
    let file = file_of(query, number);
    match shelf.records(alloc, file, LIMIT) {
        Ok(records) => load_table(alloc, query, number, records),
        Err(ShelfFault::Failed) => Err(Stop::Unread(unread_line(alloc, file)?)),
        Err(ShelfFault::TooLong) => {
            let line = long_line(alloc, name_of(query, number))?;
            Err(Stop::Refused(line))
        }
        Err(ShelfFault::Memory) => Err(Stop::Memory),
    }
}
