// The names of a table and of its file, as text.
ghost use Rattle.std.specs.Prelude.{◌≡◌, ◌<◌, length, slice_get, Some, IsUtf8};
ghost use Rattle.star_model.specs.WellFormed.{WellFormedQuery, WellFormedTable};
ghost use Rattle.table_taking.specs.QueryTables.{name_of, file_of};

use star_model::catalogue::TableDef;
use star_model::query::Query;

fn text_of(bytes: &[u8]) -> &str
    requires { IsUtf8 bytes.now }
    ensures { result.now ≡ bytes.now }
{
    let Ok(text) = str::from_utf8(bytes) else {
        unreachable!()
    };
    text
}

// The table of this number in the catalogue.
fn table_of(query: &Query, number: u8) -> &TableDef
    requires query { WellFormedQuery query.now }
    requires number { number < length query.now.catalogue.tables }
    ensures is { slice_get query.now.catalogue.tables number ≡ Some result.now }
    ensures formed { WellFormedTable (length query.now.catalogue.sites) result.now }
{
    &query.catalogue.tables.as_slice()[number as usize]
}

// The name of the table of this number.
pub fn name_of(query: &Query, number: u8) -> &str
    requires query { WellFormedQuery query.now }
    requires number { number < length query.now.catalogue.tables }
    ensures { result.now ≡ name_of query.now number }
{
    text_of(table_of(query, number).name.as_slice())
}

// The name of its file.
pub fn file_of(query: &Query, number: u8) -> &str
    requires query { WellFormedQuery query.now }
    requires number { number < length query.now.catalogue.tables }
    ensures { result.now ≡ file_of query.now number }
{
    text_of(table_of(query, number).file.as_slice())
}
