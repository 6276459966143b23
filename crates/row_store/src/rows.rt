// The first fault of a table's rows.
ghost use Rattle.std.specs.Prelude.{◌≡◌, ◌<◌, ◌≤◌, length, drop, All};
ghost use Rattle.std.specs.Option.{is_some};
ghost use Rattle.star_model.specs.Limits.{most_columns, most_rows};
ghost use Rattle.sb_outside.specs.Records.{record_at};
ghost use Rattle.star_model.specs.Data.{value_in};
ghost use Rattle.row_store.specs.Reading.{bad_column, row_fault, rows_fault};

use crate::fault::TableFault;
use crate::header::Column;
use crate::integer::integer_of;
use sb_outside::RawTable;
use star_model::catalogue::ColType;

/// How many rows a table may have.
pub const MAX_ROWS: usize = 200_000;

// Whether a field has a value of this type.
fn is_value(kind: ColType, field: &[u8]) -> bool
    ensures { result ≡ is_some (value_in kind field.now) }
{
    match kind {
        ColType::Int => integer_of(field).is_some(),
        ColType::Text => true,
    }
}

// The number, from 1, of the first column without a value in this record.
fn bad_column(raw: &RawTable, columns: &[Column], record_no: usize) -> Option<u8>
    requires record { record_no < length raw.now }
    requires few { length columns.now ≤ most_columns }
    requires in_range { All (λ column. column.place < length (record_at raw.now record_no))
        columns.now }
    ensures { result ≡ bad_column (record_at raw.now record_no) 0 columns.now }
{
    for (index, column) in columns.iter().enumerate() {
        if !is_value(column.kind, raw.field(record_no, column.place)) {
            return Some(index as u8 + 1);
        }
    }
    None
}

// The first fault of the row that is the record of this number.
fn row_fault(raw: &RawTable, columns: &[Column], row: usize) -> Option<TableFault>
    requires record { row < length raw.now }
    requires few_rows { row ≤ most_rows }
    requires few { length columns.now ≤ most_columns }
    requires in_range { All (λ column. column.place < length (record_at raw.now 0)) columns.now }
    ensures { result ≡ row_fault columns.now (length (record_at raw.now 0)) row
        (record_at raw.now row) }
{
    if raw.fields(row) == raw.fields(0) {
        let column = bad_column(raw, columns, row)?;
        Some(TableFault::BadField(row as u32, column))
    } else {
        Some(TableFault::BadRow(row as u32))
    }
}

/// The first fault of the rows: the records after the header.
pub fn rows_fault(raw: &RawTable, columns: &[Column]) -> Option<TableFault>
    requires header { 0 < length raw.now }
    requires few { length columns.now ≤ most_columns }
    requires in_range { All (λ column. column.place < length (record_at raw.now 0)) columns.now }
    ensures { result ≡ rows_fault columns.now (length (record_at raw.now 0)) 0 (drop 1 raw.now) }
{
    for row in 1..raw.len() {
        if row > MAX_ROWS {
            return Some(TableFault::TooManyRows);
        }
        let fault = row_fault(raw, columns, row);
        if fault.is_some() {
            return fault;
        }
    }
    None
}
