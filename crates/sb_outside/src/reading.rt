// The reading of all records by `csv`.
ghost use Rattle.std.specs.Prelude.{◌≡◌, [], ◌∷◌, ◌++◌, Some, IsSome, IfOk, OnOk};
ghost use Rattle.csv.specs.Reading.{error_kind};
ghost use Rattle.csv.specs.Records.{fields_of};
ghost use Rattle.sb_outside.specs.Csv.{IsAtStart, fault_of_kind};
ghost use Rattle.sb_outside.specs.Records.{records_of};

use crate::{RawTable, RecordsFault};
use csv::{ByteRecord, Error, ErrorKind, Reader, ReaderBuilder};
use std::alloc::{AllocError, Global};

// A reader of all records of these bytes.
fn reader_of(alloc: Global, bytes: &[u8]) -> Reader<&[u8]>
    ensures { IsAtStart result bytes.now }
{
    ReaderBuilder::new()
        .has_headers(false)
        .flexible(true)
        .from_reader(alloc, bytes)
}

// Why such a reader gives no record.
fn fault_of(error: Error) -> RecordsFault
    requires { IsSome (fault_of_kind (error_kind error)) }
    ensures { fault_of_kind (error_kind error) ≡ Some result }
{
    match error.into_kind() {
        ErrorKind::Io(_) => RecordsFault::Refused,
        ErrorKind::OutOfMemory => RecordsFault::Memory,
        // It asks for no length and for no text, and makes no value.
        _ => unreachable!(),
    }
}

// Adds a record with the fields of a row.
fn add_record(table: &mut RawTable, row: &ByteRecord) -> Result<(), AllocError>
    ensures { OnOk result (table.new ≡ table.old ++ fields_of row.now ∷ []) }
{
    table.begin()?;
    for field in row {
        table.add(field)?;
    }
    Ok(())
}

/// All records of these bytes, as `csv` reads them: fields are separated by `,`, and a field in
/// double quotes may have `,`, line ends and doubled quotes.
///
/// Records may differ in length, and the first is a record like any other. A byte order mark at the
/// front is dropped.
pub fn read_table(alloc: Global, bytes: &[u8]) -> Result<RawTable, RecordsFault>
    ensures { IfOk result (λ table. table ≡ records_of bytes.now) }
{
    let mut table = RawTable::new(alloc);
    for row in reader_of(alloc, bytes).into_byte_records() {
        match row {
            Ok(row) => add_record(&mut table, &row)?,
            Err(error) => return Err(fault_of(error)),
        }
    }
    Ok(table)
}
