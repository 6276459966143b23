// Where the columns of a table stand in the header of its records.
ghost use Rattle.std.specs.Prelude.{◌≡◌, ◌<◌, [], length, slice_index_or, option_map, IfOk, IfSome, All};
ghost use Rattle.sb_outside.specs.Records.{record_at};
ghost use Rattle.star_model.specs.Data.{without_mark, header_of, place_in};
ghost use Rattle.row_store.specs.Columns.{column_in, columns_in};

use sb_outside::RawTable;
use star_model::catalogue::{ColType, ColumnDef, TableDef};
use std::alloc::{AllocError, Global};

/// How the fields of a column are read, and which field of each record is its own.
#[derive(Clone, Copy, Debug)]
pub struct Column {
    pub kind: ColType,
    /// From 0.
    pub place: usize,
}

// The bytes behind a byte order mark, if they begin with one.
fn without_mark(field: &[u8]) -> &[u8]
    ensures { result.now ≡ without_mark field.now }
{
    match field {
        [0xEF, 0xBB, 0xBF, rest @ ..] => rest,
        _ => field,
    }
}

// A name in the header.
fn header_field(raw: &RawTable, field_no: usize) -> &[u8]
    requires header { 0 < length raw.now }
    requires in_range { field_no < length (record_at raw.now 0) }
    ensures { result.now ≡ slice_index_or (header_of (record_at raw.now 0)) field_no [] }
{
    let field = raw.field(0, field_no);
    if field_no == 0 {
        without_mark(field)
    } else {
        field
    }
}

// Where a name stands in the header, if it stands there once.
fn place_of(raw: &RawTable, name: &[u8]) -> Option<usize>
    requires { 0 < length raw.now }
    ensures place { result ≡ place_in (header_of (record_at raw.now 0)) name.now }
    ensures in_range { IfSome result (λ place. place < length (record_at raw.now 0)) }
{
    let mut place = None;
    for field_no in 0..raw.fields(0) {
        if name == header_field(raw, field_no) {
            if place.is_some() {
                return None;
            }
            place = Some(field_no);
        }
    }
    place
}

// The column, if its name stands once in the header.
fn column_of(raw: &RawTable, definition: &ColumnDef) -> Option<Column>
    requires { 0 < length raw.now }
    ensures column { result ≡ column_in (header_of (record_at raw.now 0)) definition.now }
    ensures in_range { IfSome result (λ column. column.place < length (record_at raw.now 0)) }
{
    let place = place_of(raw, definition.name.as_slice())?;
    Some(Column {
        kind: definition.kind,
        place,
    })
}

/// The columns of a table in the catalogue's order, if each stands once in the header.
pub fn columns_of(
    alloc: Global,
    definition: &TableDef,
    raw: &RawTable,
) -> Result<Option<Vec<Column>>, AllocError>
    requires { 0 < length raw.now }
    ensures columns { IfOk result (λ found. option_map (λ columns. columns.items) found
        ≡ columns_in (header_of (record_at raw.now 0)) definition.now) }
    ensures in_range { IfOk result (λ found. IfSome found
        (λ columns. All (λ column. column.place < length (record_at raw.now 0)) columns.items)) }
    ensures count { IfOk result (λ found. IfSome found
        (λ columns. length columns.items ≡ length definition.now.columns)) }
{
    let mut columns = Vec::new(alloc);
    for column in definition.columns.as_slice() {
        let Some(column) = column_of(raw, column) else {
            return Ok(None);
        };
        columns.push(column)?;
    }
    Ok(Some(columns))
}
