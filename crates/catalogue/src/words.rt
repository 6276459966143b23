// What the statements of a catalogue text say: names as they are written, and numbers of any size
// that a token has.

ghost use Rattle.std.specs.Prelude.{◌≡◌, ◌+◌, ◌<◌, ◌^◌};

use star_model::catalogue::ColType;
use star_model::lists::{Bytes, List, Name};

/// What a `site` statement says.
#[derive(Drop)]
pub struct SiteWords {
    pub name: Name,
    pub cpu: u64,
    pub net: u64,
}

/// What a `table` statement says of a column.
#[derive(Drop)]
pub struct ColumnWords {
    pub name: Name,
    pub kind: ColType,
    pub width: u64,
    pub distinct: u64,
}

/// What a `table` statement says.
#[derive(Drop)]
pub struct TableWords {
    pub name: Name,
    pub site: Name,
    pub rows: u64,
    pub pages: u64,
    /// The name of the file, with its doubled quotes as one each.
    pub file: Bytes,
    pub columns: List<ColumnWords>,
}

/// What an `index` statement says.
#[derive(Drop)]
pub struct IndexWords {
    pub name: Name,
    pub table: Name,
    pub columns: List<Name>,
    pub pages: u64,
}

/// What a statement says.
#[derive(Drop)]
pub enum StatementWords {
    Site(SiteWords),
    Table(TableWords),
    Index(IndexWords),
}

// The number, from 1, of the statement at this place, from 0.
pub(crate) fn number_of(place: usize) -> u32
    requires { place + 1 < 2 ^ 32 }
    ensures { result ≡ place + 1 }
{
    place as u32 + 1
}
