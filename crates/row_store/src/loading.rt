// The loading of a table of the catalogue.
ghost use Rattle.std.specs.Prelude.{◌<◌, length};
ghost use Rattle.star_model.specs.WellFormed.{WellFormedCatalogue};
ghost use Rattle.row_store.specs.Faults.{Loads};

use crate::fault::TableFault;
use crate::table::Table;
use sb_outside::RawTable;
use star_model::catalogue::Catalogue;
use std::alloc::Global;

/// The rows that these records hold for a table of the catalogue. The first record is the header,
/// with the names of the columns in any order and maybe further ones.
///
/// On a refusal the records are dropped.
pub fn load(
    alloc: Global,
    catalogue: &Catalogue,
    table: u8,
    raw: RawTable,
) -> Result<Table, TableFault>
    requires catalogue { WellFormedCatalogue catalogue.now }
    requires table { table < length catalogue.now.tables }
    ensures { Loads catalogue.now table raw result }
{
    Table::open(alloc, &catalogue.tables.as_slice()[table as usize], raw)
}
