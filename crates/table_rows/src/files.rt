// The rows of files, told as texts.
ghost use Rattle.std.specs.Prelude.{◌≡◌, ◌<◌, ℕ, [], length, slice_index_or};
ghost use Rattle.star_model.specs.WellFormed.{WellFormedCatalogue};

use crate::tables::{catalogue_of, place_of};
use row_store::{Cell, Table, TableFault, load};
use sb_outside::{MemoryShelf, RawTable, RecordsFault, Shelf, ShelfFault, read_table};
use star_model::catalogue::Catalogue;
use std::alloc::{AllocError, Global};

// The greatest length of a file in bytes.
const MOST_BYTES: usize = 67_108_864;

// What a refusal says of a file.
fn line_of(alloc: Global, fault: TableFault) -> Result<String, AllocError> {
    match fault {
        TableFault::BadHeader => String::from_str(alloc, "bad header"),
        TableFault::TooManyRows => String::from_str(alloc, "more than 200000 rows"),
        TableFault::BadRow(row) => format!(in alloc; "row {row} has another length"),
        TableFault::BadField(row, column) => {
            format!(in alloc; "row {row} column {column} is no integer")
        }
        TableFault::Memory => Err(AllocError),
    }
}

// Adds an integer in decimal, or a text in quotes, with each quote in it doubled.
fn push_cell(told: &mut String, alloc: Global, cell: Cell<'_>) -> Result<(), AllocError> {
    let value = match cell {
        Cell::Int(number) => format!(in alloc; "{number}")?,
        Cell::Text(bytes) => {
            let text = String::from_utf8_lossy(alloc, bytes)?.replace(alloc, "'", "''")?;
            format!(in alloc; "'{text}'")?
        }
    };
    told.push_str(value.as_str())
}

// Adds the values of a row.
fn push_row(
    told: &mut String,
    alloc: Global,
    table: &Table,
    row: u32,
    columns: u8,
) -> Result<(), AllocError>
    requires row { row < length table.now }
    requires columns { length (slice_index_or table.now row []) ≡ columns }
{
    for column in 0..columns {
        told.push_str(if column == 0 { " " } else { "," })?;
        push_cell(told, alloc, table.cell(row, column))?;
    }
    Ok(())
}

// The number of rows and their values, of a table with so many columns.
fn rows_of(alloc: Global, table: &Table, columns: u8) -> Result<String, AllocError>
    requires { (row : ℕ) → row < length table.now
        → length (slice_index_or table.now row []) ≡ columns }
{
    let rows = table.rows();
    let mut told = format!(in alloc; "rows {rows}")?;
    for row in 0..rows {
        told.push_str(if row == 0 { ":" } else { ";" })?;
        push_row(&mut told, alloc, table, row, columns)?;
    }
    Ok(told)
}

// The answer to the records of a table of the catalogue.
fn told_records(
    alloc: Global,
    catalogue: &Catalogue,
    table: u8,
    records: RawTable,
) -> Result<String, AllocError>
    requires catalogue { WellFormedCatalogue catalogue.now }
    requires table { table < length catalogue.now.tables }
{
    let definition = &catalogue.tables.as_slice()[usize::from(table)];
    let Ok(columns) = u8::try_from(definition.columns.len()) else {
        return Err(AllocError);
    };
    match load(alloc, catalogue, table, records) {
        Ok(table) => rows_of(alloc, &table, columns),
        Err(fault) => line_of(alloc, fault),
    }
}

// The answer to these records of the table of this name.
fn told(
    alloc: Global,
    catalogue: &str,
    name: &str,
    records: RawTable,
) -> Result<String, AllocError> {
    let catalogue = catalogue_of(alloc, catalogue)?;
    match place_of(&catalogue, name) {
        Some(table) => told_records(alloc, &catalogue, table, records),
        None => String::from_str(alloc, "no table"),
    }
}

/// The answer to a file of the table of this name.
pub fn told_file(
    alloc: Global,
    catalogue: &str,
    name: &str,
    file: &[u8],
) -> Result<String, AllocError> {
    match read_table(alloc, file) {
        Ok(records) => told(alloc, catalogue, name, records),
        Err(RecordsFault::Refused) => String::from_str(alloc, "no records"),
        Err(RecordsFault::Memory) => Err(AllocError),
    }
}

/// The answer to a file without the rows themselves.
pub fn front_of_told(
    alloc: Global,
    catalogue: &str,
    name: &str,
    file: &[u8],
) -> Result<String, AllocError> {
    let told = told_file(alloc, catalogue, name, file)?;
    let (front, _) = told.split_once(":").unwrap_or((told.as_str(), ""));
    String::from_str(alloc, front)
}

/// The answer to a file of words with one row and so many line ends behind it, taken from a shelf.
pub fn told_long(
    alloc: Global,
    catalogue: &str,
    name: &str,
    line_ends: &str,
) -> Result<String, AllocError> {
    let line_ends = "\n".repeat(alloc, line_ends.parse().unwrap_or(0))?;
    let file = format!(in alloc; "k\nx{line_ends}")?;
    let mut files = Vec::new(alloc);
    files.push((String::from_str(alloc, "word.csv")?, file.into_bytes()))?;
    let mut shelf = MemoryShelf {
        files,
        failing: Vec::new(alloc),
        calls: 0,
        faults: 0,
        taken: 0,
        last: None,
    };
    match shelf.records(alloc, "word.csv", MOST_BYTES) {
        Ok(records) => told(alloc, catalogue, name, records),
        Err(ShelfFault::TooLong) => String::from_str(alloc, "longer than 67108864 bytes"),
        Err(ShelfFault::Failed) => String::from_str(alloc, "no records"),
        Err(ShelfFault::Memory) => Err(AllocError),
    }
}
