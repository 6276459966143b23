// Statements that go beyond a limit.
ghost use Rattle.std.specs.Prelude.{◌≡◌, ◌+◌, ◌<◌, ◌^◌, List as Seq, [], ◌∷◌, ◌++◌, length, map, MatchOption};
ghost use Rattle.std.specs.List.{list_any};
ghost use Rattle.std.specs.Str.{is_utf8};
ghost use Rattle.catalogue.specs.Catalogues.{CatalogueStatement, Table, Index};
ghost use Rattle.spelling.specs.Firsts.{NoneHas};
ghost use Rattle.catalogue.specs.Words.{said, column_of, table_of, index_of};
ghost use Rattle.catalogue.specs.Beyond.{IsBeyond};
ghost use Rattle.catalogue.specs.Faults.{IsLimitAt};
ghost use Rattle.catalogue.specs.LimitTests.{is_great_column, has_great_number, is_long, is_long_column, has_long_name, is_file_name, kind_limit, limit_beyond, Counted};

use crate::words::{ColumnWords, IndexWords, StatementWords, TableWords, number_of};
use star_model::faults::LimitKind;
use star_model::lists::Name;

const GREATEST_NUMBER: u64 = 1_000_000_000_000_000_000;

const MOST_NAME: usize = 64;

const MOST_FILE: usize = 255;

const MOST_SITES: usize = 8;

const MOST_TABLES: usize = 32;

const MOST_COLUMNS: usize = 32;

const MOST_INDEXES: usize = 64;

const MOST_INDEX_COLUMNS: usize = 8;

/// How many sites, tables and indexes the statements so far define.
#[derive(Clone, Copy)]
pub struct Counts {
    pub sites: usize,
    pub tables: usize,
    pub indexes: usize,
}

impl Counts {
    // The counts with what the statement defines.
    fn with(self, statement: &StatementWords) -> Counts
        requires { self.sites + self.tables + self.indexes < 2 ^ 32 }
        ensures { (earlier : Seq CatalogueStatement) → Counted self earlier
            → Counted result (earlier ++ said statement.now ∷ []) }
    {
        match statement {
            StatementWords::Site(_) => Counts {
                sites: self.sites + 1,
                ..self
            },
            StatementWords::Table(_) => Counts {
                tables: self.tables + 1,
                ..self
            },
            StatementWords::Index(_) => Counts {
                indexes: self.indexes + 1,
                ..self
            },
        }
    }
}

fn is_great_column(column: &ColumnWords) -> bool
    ensures { result ≡ is_great_column (column_of column.now) }
{
    column.width > GREATEST_NUMBER || column.distinct > GREATEST_NUMBER
}

fn some_is_great(columns: &[ColumnWords]) -> bool
    ensures { result ≡ list_any (λ c. is_great_column (column_of c)) columns.now }
{
    columns.iter().any(is_great_column)
}

#[tactic(auto, using(crate::proofs::LimitLaws::some_great))]
fn has_great_number(statement: &StatementWords) -> bool
    ensures { result ≡ has_great_number (said statement.now) }
{
    match statement {
        StatementWords::Site(site) => site.cpu > GREATEST_NUMBER || site.net > GREATEST_NUMBER,
        StatementWords::Table(table) => {
            table.rows > GREATEST_NUMBER
                || table.pages > GREATEST_NUMBER
                || some_is_great(table.columns.as_slice())
        }
        StatementWords::Index(index) => index.pages > GREATEST_NUMBER,
    }
}

fn is_long(name: &Name) -> bool
    ensures { result ≡ is_long name.now }
{
    name.len() > MOST_NAME
}

fn some_is_long(names: &[Name]) -> bool
    ensures { result ≡ list_any is_long names.now }
{
    names.iter().any(is_long)
}

fn some_column_is_long(columns: &[ColumnWords]) -> bool
    ensures { result ≡ list_any (λ c. is_long_column (column_of c)) columns.now }
{
    columns.iter().any(|column| is_long(&column.name))
}

#[tactic(auto, using(crate::proofs::LimitLaws::some_long))]
fn has_long_name(statement: &StatementWords) -> bool
    ensures { result ≡ has_long_name (said statement.now) }
{
    match statement {
        StatementWords::Site(site) => is_long(&site.name),
        StatementWords::Table(table) => {
            is_long(&table.name)
                || is_long(&table.site)
                || some_column_is_long(table.columns.as_slice())
        }
        StatementWords::Index(index) => {
            is_long(&index.name) || is_long(&index.table) || some_is_long(index.columns.as_slice())
        }
    }
}

fn is_utf8(bytes: &[u8]) -> bool
    ensures { result ≡ is_utf8 bytes.now }
{
    str::from_utf8(bytes).is_ok()
}

fn is_file_name(name: &[u8]) -> bool
    ensures { result ≡ is_file_name name.now }
{
    !name.is_empty() && name.len() <= MOST_FILE && is_utf8(name)
}

fn table_limit(before: Counts, table: &TableWords) -> Option<LimitKind>
    ensures { result ≡ kind_limit before (Table (table_of table.now)) }
{
    if !is_file_name(table.file.as_slice()) {
        Some(LimitKind::File)
    } else if before.tables >= MOST_TABLES {
        Some(LimitKind::Tables)
    } else if table.columns.len() > MOST_COLUMNS {
        Some(LimitKind::Columns)
    } else {
        None
    }
}

fn index_limit(before: Counts, index: &IndexWords) -> Option<LimitKind>
    ensures { result ≡ kind_limit before (Index (index_of index.now)) }
{
    if before.indexes >= MOST_INDEXES {
        Some(LimitKind::Indexes)
    } else if index.columns.len() > MOST_INDEX_COLUMNS {
        Some(LimitKind::IndexColumns)
    } else {
        None
    }
}

fn kind_limit(before: Counts, statement: &StatementWords) -> Option<LimitKind>
    ensures { result ≡ kind_limit before (said statement.now) }
{
    match statement {
        StatementWords::Site(_) => {
            if before.sites >= MOST_SITES {
                Some(LimitKind::Sites)
            } else {
                None
            }
        }
        StatementWords::Table(table) => table_limit(before, table),
        StatementWords::Index(index) => index_limit(before, index),
    }
}

// The first limit that the statement goes beyond, behind so many others.
fn limit_beyond(before: Counts, statement: &StatementWords) -> Option<LimitKind>
    ensures { result ≡ limit_beyond before (said statement.now) }
{
    if has_great_number(statement) {
        Some(LimitKind::Number)
    } else if has_long_name(statement) {
        Some(LimitKind::Name)
    } else {
        kind_limit(before, statement)
    }
}

/// The number of the first statement that goes beyond a limit, with the first limit that it goes
/// beyond, where there is one.
pub fn first_limit(statements: &[StatementWords]) -> Option<(u32, LimitKind)>
    requires { length statements.now < 2 ^ 32 }
    ensures { MatchOption result (NoneHas IsBeyond (map said statements.now))
        (λ found. IsLimitAt (map said statements.now) found.0 found.1) }
{
    let mut before = Counts {
        sites: 0,
        tables: 0,
        indexes: 0,
    };
    for (place, statement) in statements.iter().enumerate() {
        match limit_beyond(before, statement) {
            Some(what) => return Some((number_of(place), what)),
            None => before = before.with(statement),
        }
    }
    None
}
