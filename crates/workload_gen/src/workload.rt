// Workloads.

ghost use Rattle.std.specs.Prelude.{◌≡◌, IfOk};
ghost use Rattle.workload_gen.specs.Workloads.{IsSize, workload, Makes};

use crate::catalogue_text::catalogue_text;
use crate::fault::GenFault;
use crate::query_text::query_text;
use crate::records::all_records;
use crate::rules_text::rules_text;
use crate::tables::draw_tables;
use sb_outside::RawTable;
use star_model::lists::{Bytes, List};
use std::alloc::{AllocError, Global};

/// Rules, a catalogue, a query over it, and the records of its tables.
#[derive(Drop)]
pub struct Workload {
    /// The text of the rules, which is the same for all workloads.
    pub rules: Bytes,
    /// The text of the catalogue, with the tables' true numbers of rows.
    pub catalogue: Bytes,
    /// The text of the query, which links each table with the one before.
    pub query: Bytes,
    /// The records of each table of the catalogue, the first of them a header.
    pub tables: List<RawTable>,
}

fn workload_of_size(alloc: Global, seed: u64, size: u8) -> Result<Workload, AllocError>
    requires { IsSize size }
    ensures { IfOk result (λ made. made ≡ workload seed size) }
{
    let tables = draw_tables(alloc, seed, size)?;
    let rules = Vec::from_slice(alloc, rules_text())?;
    let catalogue = catalogue_text(alloc, tables.as_slice())?;
    let query = query_text(alloc, size as usize)?;
    Ok(Workload {
        rules: Bytes::from_vec(rules),
        catalogue: Bytes::from_vec(catalogue),
        query: Bytes::from_vec(query),
        tables: all_records(alloc, tables.as_slice())?,
    })
}

/// The workload of a seed and a size, the number of its tables. The same seed and size give the
/// same workload.
///
/// Each row of a table but the first refers to one row of the table before, so the query has as
/// many rows as the last table.
pub fn make(alloc: Global, seed: u64, size: u8) -> Result<Workload, GenFault>
    ensures { Makes seed size result }
{
    if !(1..=8).contains(&size) {
        return Err(GenFault::Size);
    }
    let made = workload_of_size(alloc, seed, size)?;
    Ok(made)
}
