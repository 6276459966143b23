// The records of the tables.

ghost use Rattle.std.specs.Prelude.{◌≡◌, [], ◌∷◌, ◌++◌, map, IfOk, OnOk};
ghost use Rattle.workload_gen.specs.Records.{rows_from, records_of};

use crate::tables::DrawnTable;
use itoa::Buffer;
use sb_outside::RawTable;
use star_model::lists::List;
use std::alloc::{AllocError, Global};

// Adds a record of two fields.
fn add_pair(table: &mut RawTable, first: &[u8], second: &[u8]) -> Result<(), AllocError>
    ensures { OnOk result (table.new ≡ table.old ++ (first.now ∷ second.now ∷ []) ∷ []) }
{
    table.begin()?;
    table.add(first)?;
    table.add(second)
}

// Adds the rows that refer to these rows of the table before.
fn add_rows(table: &mut RawTable, prevs: &[u64]) -> Result<(), AllocError>
    ensures { OnOk result (table.new ≡ table.old ++ rows_from 0 prevs.now) }
{
    for (row, prev) in prevs.iter().enumerate() {
        let mut id_digits = Buffer::new();
        let mut prev_digits = Buffer::new();
        let id = id_digits.format(row);
        let prev = prev_digits.format(*prev);
        add_pair(table, id.as_bytes(), prev.as_bytes())?;
    }
    Ok(())
}

fn records(alloc: Global, table: &DrawnTable) -> Result<RawTable, AllocError>
    ensures { IfOk result (λ records. records ≡ records_of table.now) }
{
    let mut records = RawTable::new(alloc);
    add_pair(&mut records, b"id", b"prev")?;
    add_rows(&mut records, table.prevs.as_slice())?;
    Ok(records)
}

/// The records of each table.
pub fn all_records(alloc: Global, tables: &[DrawnTable]) -> Result<List<RawTable>, AllocError>
    ensures { IfOk result (λ all. all ≡ map records_of tables.now) }
{
    let mut all = List::new(alloc);
    for table in tables {
        all.push(records(alloc, table)?)?;
    }
    Ok(all)
}
