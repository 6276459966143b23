// The orders of rows by columns: the numbers of the rows from 0.
use crate::tables::{catalogue_of, place_of};
use row_store::{Table, build_index, load};
use sb_outside::read_table;
use std::alloc::{AllocError, Global};

// The rows of a file of the table of this name. No row has a file without rows.
fn loaded(alloc: Global, catalogue: &str, name: &str, file: &[u8]) -> Result<Table, AllocError> {
    let catalogue = catalogue_of(alloc, catalogue)?;
    let Some(table) = place_of(&catalogue, name) else {
        return Err(AllocError);
    };
    let Ok(records) = read_table(alloc, file) else {
        return Err(AllocError);
    };
    match load(alloc, &catalogue, table, records) {
        Ok(table) => Ok(table),
        Err(_) => Err(AllocError),
    }
}

// The columns of these numbers, with one space between two.
fn columns_of(alloc: Global, numbers: &str) -> Result<Vec<u8>, AllocError> {
    let mut columns = Vec::new(alloc);
    for number in numbers.split(' ') {
        if let Ok(column) = number.parse() {
            columns.push(column)?;
        }
    }
    Ok(columns)
}

/// The numbers of the rows of a file, in the order by the columns that stand behind the name of its
/// table.
pub fn told(
    alloc: Global,
    catalogue: &str,
    sorted: &str,
    file: &[u8],
) -> Result<String, AllocError> {
    let (name, columns) = sorted.split_once(' ').unwrap_or((sorted, ""));
    let table = loaded(alloc, catalogue, name, file)?;
    let columns = columns_of(alloc, columns)?;
    let order = build_index(alloc, &table, columns.as_slice())?;
    let mut told = String::from_str(alloc, "rows")?;
    for row in order.as_slice() {
        told.push_str(format!(in alloc; " {row}")?.as_str())?;
    }
    Ok(told)
}

/// The same of a file whose bytes are the numbers of a text's characters.
pub fn told_of_bytes(
    alloc: Global,
    catalogue: &str,
    sorted: &str,
    file: &str,
) -> Result<String, AllocError> {
    let mut bytes = Vec::new(alloc);
    for character in file.chars() {
        bytes.push(u8::try_from(u32::from(character)).unwrap_or(0))?;
    }
    told(alloc, catalogue, sorted, bytes.as_slice())
}
