// The tables of a workload, loaded from its records.

ghost use Rattle.std.specs.Prelude.{◌≡◌, ◌<◌, ◌≤◌, [], length, slice_get, slice_set, Some, IfOk};
ghost use Rattle.star_model.specs.Data.{table_rows};
ghost use Rattle.star_model.specs.WellFormed.{WellFormedCatalogue};
ghost use Rattle.row_steps.specs.LoadedTables.{data_of};
ghost use Rattle.workload_runs.specs.TableRows.{AreRows};
ghost use Rattle.workload_runs.specs.HeldRows.{HoldsRows, HoldRows, AreAllLoaded};

use row_steps::Tables;
use row_store::{Table, TableFault, load};
use sb_outside::RawTable;
use star_model::catalogue::Catalogue;
use star_model::lists::List;
use std::alloc::{AllocError, Global};
use std::mem;

// The table of this number, from records without a fault.
fn load_table(
    alloc: Global,
    catalogue: &Catalogue,
    number: u8,
    records: RawTable,
) -> Result<Table, AllocError>
    requires catalogue { WellFormedCatalogue catalogue.now }
    requires number { number < length catalogue.now.tables }
    requires rows { HoldsRows catalogue.now number records }
    ensures { IfOk result (λ rows. table_rows catalogue.now number records ≡ Some rows) }
{
    match load(alloc, catalogue, number, records) {
        Ok(table) => Ok(table),
        Err(fault) => {
            prove!(matches!(&fault, TableFault::Memory));
            Err(AllocError)
        }
    }
}

// Takes the records of this table, and leaves none in their place.
fn take_records(alloc: Global, tables: &mut List<RawTable>, number: usize) -> RawTable
    requires { number < length tables.old }
    ensures records { slice_get tables.old number ≡ Some result }
    ensures left { tables.new ≡ slice_set tables.old number [] }
{
    match tables.get_mut(number) {
        Some(records) => mem::replace(records, RawTable::new(alloc)),
        None => unreachable!(),
    }
}

/// The tables of the catalogue, from the records of each.
pub fn load_tables(
    alloc: Global,
    catalogue: &Catalogue,
    mut records: List<RawTable>,
) -> Result<Tables, AllocError>
    requires catalogue { WellFormedCatalogue catalogue.now }
    requires each { length records ≡ length catalogue.now.tables }
    requires rows { HoldRows catalogue.now records }
    ensures rows { IfOk result (λ tables. AreRows catalogue.now records (data_of tables)) }
    ensures all { IfOk result (AreAllLoaded catalogue.now) }
{
    let mut loaded = List::new(alloc);
    for number in 0..records.len() {
        let own = take_records(alloc, &mut records, number);
        let table = load_table(alloc, catalogue, number as u8, own)?;
        loaded.push(Some(table))?;
    }
    Ok(Tables { loaded })
}
