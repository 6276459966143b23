// The integers of a table's columns, parsed once.
ghost use Rattle.std.specs.Prelude.{◌≡◌, ◌<◌, ℕ, true, length, map, drop, IfOk, Some, All};
ghost use Rattle.std.specs.Option.{is_some};
ghost use Rattle.sb_outside.specs.Records.{record_at};
ghost use Rattle.star_model.specs.Data.{integer_in, field_at};
ghost use Rattle.row_store.specs.Reading.{has_value};
ghost use Rattle.row_store.specs.Numbers.{integers_in};

use crate::header::Column;
use crate::integer::integer_of;
use sb_outside::RawTable;
use star_model::catalogue::ColType;
use std::alloc::{AllocError, Global};

// The integers in one field of the records after the header.
fn integers_at(alloc: Global, raw: &RawTable, place: usize) -> Result<Vec<i64>, AllocError>
    requires header { 0 < length raw.now }
    requires in_range { (row : ℕ) → row < length raw.now → place < length (record_at raw.now row) }
    requires values { (row : ℕ) → 0 < row → row < length raw.now
        → is_some (integer_in (field_at (record_at raw.now row) place)) ≡ true }
    ensures { IfOk result (λ integers. map (λ integer. Some integer) integers.items
        ≡ map (λ fields. integer_in (field_at fields place)) (drop 1 raw.now)) }
{
    let mut integers = Vec::with_capacity(alloc, raw.len() - 1)?;
    for row in 1..raw.len() {
        let Some(integer) = integer_of(raw.field(row, place)) else {
            unreachable!()
        };
        integers.push(integer)?;
    }
    Ok(integers)
}

// The integers of a column; of a column of texts none.
fn integers_of(alloc: Global, raw: &RawTable, column: &Column) -> Result<Vec<i64>, AllocError>
    requires header { 0 < length raw.now }
    requires in_range { (row : ℕ) → row < length raw.now
        → column.now.place < length (record_at raw.now row) }
    requires values { (row : ℕ) → 0 < row → row < length raw.now
        → has_value (record_at raw.now row) column.now ≡ true }
    ensures { IfOk result (λ integers. map (λ integer. Some integer) integers.items
        ≡ integers_in (drop 1 raw.now) column.now) }
{
    match column.kind {
        ColType::Int => integers_at(alloc, raw, column.place),
        ColType::Text => Ok(Vec::new(alloc)),
    }
}

/// The integers of each column, row by row, where the rows have no fault.
pub fn numbers_of(
    alloc: Global,
    raw: &RawTable,
    columns: &[Column],
) -> Result<Vec<Vec<i64>>, AllocError>
    requires header { 0 < length raw.now }
    requires in_range { (row : ℕ) → row < length raw.now
        → All (λ column. column.place < length (record_at raw.now row)) columns.now }
    requires values { (row : ℕ) → 0 < row → row < length raw.now
        → All (λ column. has_value (record_at raw.now row) column ≡ true) columns.now }
    ensures { IfOk result (λ numbers.
        map (λ integers. map (λ integer. Some integer) integers.items) numbers.items
        ≡ map (integers_in (drop 1 raw.now)) columns.now) }
{
    let mut numbers = Vec::with_capacity(alloc, columns.len())?;
    for column in columns {
        numbers.push(integers_of(alloc, raw, column)?)?;
    }
    Ok(numbers)
}
