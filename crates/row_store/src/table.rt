// Tables: the rows of their records.
ghost use Rattle.std.specs.Prelude.{◌≡◌, ◌<◌, ◌≤◌, [], length, slice_index_or, IfOk};
ghost use Rattle.std.specs.List.{range_with_len};
ghost use Rattle.star_model.specs.Limits.{most_columns, most_rows};
ghost use Rattle.row_store.specs.Loading.{Opens};
ghost use Rattle.row_store.specs.Cells.{value_of_cell};
ghost use Rattle.row_store.specs.Indexes.{value_at};
ghost use Rattle.row_store.specs.Comparing.{HaveTypes};

use crate::fault::TableFault;
use crate::header::{Column, columns_of};
use crate::numbers::numbers_of;
use crate::rows::rows_fault;
use sb_outside::RawTable;
use star_model::catalogue::{ColType, TableDef};
use std::alloc::{AllocError, Global};
use std::marker::Model;

/// The rows of a table. Each has a value for each column, by the catalogue's order.
///
/// A table is its records with the places of its columns and its integers, which are parsed once:
/// beside the records it takes eight bytes for each integer.
#[derive(Drop)]
pub struct Table {
    raw: RawTable,
    columns: Vec<Column>,
    // The integers of each column, row by row; of a column of texts none.
    numbers: Vec<Vec<i64>>,
}

impl Model for Table {
    ghost use Rattle.std.specs.Prelude.{List};
    ghost use Rattle.star_model.specs.declared.catalogue.Value.{Value as CellValue};

    ghost Value = { List (List CellValue) };

    ghost use Rattle.row_store.specs.Tables.{rows_in, IsLoaded};

    ghost view = { rows_in };

    ghost invariant = { IsLoaded };
}

/// A value of a row.
#[derive(Clone, Copy, Debug)]
pub enum Cell<'a> {
    Int(i64),
    Text(&'a [u8]),
}

impl Table {
    /// The rows that these records hold.
    pub(crate) fn open(
        alloc: Global,
        definition: &TableDef,
        raw: RawTable,
    ) -> Result<Table, TableFault>
        requires { length definition.now.columns ≤ most_columns }
        ensures { Opens definition.now raw result }
    {
        if raw.len() == 0 {
            return Err(TableFault::BadHeader);
        }
        let Some(columns) = columns_of(alloc, definition, &raw)? else {
            return Err(TableFault::BadHeader);
        };
        if let Some(fault) = rows_fault(&raw, columns.as_slice()) {
            return Err(fault);
        }
        let numbers = numbers_of(alloc, &raw, columns.as_slice())?;
        Ok(Table {
            raw,
            columns,
            numbers,
        })
    }

    /// How many rows there are: at most 200,000. Of the values in a column all have one type.
    pub fn rows(&self) -> u32
        ensures count { result ≡ length self.now }
        ensures few { result ≤ most_rows }
        ensures types { HaveTypes self.now }
    {
        (self.raw.len() - 1) as u32
    }

    /// The value of a row, from 0, in a column, from 0 by the catalogue's order.
    pub fn cell(&self, row: u32, column: u8) -> Cell<'_>
        requires row_in_range { row < length self.now }
        requires column_in_range { column < length (slice_index_or self.now row []) }
        ensures { value_of_cell result ≡ value_at self.now row column }
    {
        let column_no = column as usize;
        let column = self.columns[column_no];
        match column.kind {
            ColType::Int => Cell::Int(self.numbers[column_no][row as usize]),
            ColType::Text => Cell::Text(self.raw.field(row as usize + 1, column.place)),
        }
    }

    /// The same, and 0 past the last row or column.
    pub fn cell_or_zero(&self, row: u32, column: u8) -> Cell<'_>
        ensures { value_of_cell result ≡ value_at self.now row column }
    {
        if row < self.rows() && (column as usize) < self.columns.len() {
            self.cell(row, column)
        } else {
            Cell::Int(0)
        }
    }

    /// The numbers of the rows, from 0. Of the values in a column all have one type.
    pub(crate) fn row_numbers(&self, alloc: Global) -> Result<Vec<u32>, AllocError>
        ensures numbers { IfOk result (λ numbers. numbers.items
            ≡ range_with_len 0 (length self.now)) }
        ensures types { HaveTypes self.now }
    {
        let count = self.raw.len() - 1;
        (0..count as u32).collect(alloc)
    }
}
