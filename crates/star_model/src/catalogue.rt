// Catalogues: the sites, tables and indexes, and what is known of their sizes.

ghost use Rattle.std.specs.Prelude.{◌≡◌, ◌<◌, ◌≤◌, [], ◌∷◌, ◌++◌, length, IsOk, ◌↔◌, OnOk, OnErr, IfErr};

use crate::columns::Site;
use crate::lists::{Bytes, List, Name};
use crate::num::Num;
use arrayvec::ArrayVec;
use std::marker::Model;

/// The type of a column.
#[derive(Clone, Copy, Debug, PartialEq, Eq)]
pub enum ColType {
    Int,
    Text,
}

/// What a column holds. There are no nulls.
#[derive(Debug, Drop)]
pub enum Value {
    Int(i64),
    /// Compared byte by byte.
    Text(Bytes),
}

/// The columns of an index, by their positions in its table: 1 to 8 in an accepted catalogue.
#[derive(Drop)]
pub struct IndexColumns {
    cols: ArrayVec<u8, 8>,
}

impl Model for IndexColumns {
    ghost use Rattle.std.specs.Prelude.{ℕ, List as Seq};

    ghost Value = { Seq ℕ };

    ghost view = { λ a. a.cols.items };
}

impl IndexColumns {
    pub fn new() -> IndexColumns
        ensures { result ≡ [] }
    {
        IndexColumns {
            cols: ArrayVec::new(),
        }
    }

    pub fn len(&self) -> usize
        ensures { result ≡ length self.now }
    {
        self.cols.len()
    }

    pub fn as_slice(&self) -> &[u8]
        ensures value { result.now ≡ self.now }
        ensures room { length result.now ≤ 8 }
    {
        self.cols.as_slice()
    }

    /// Adds the column at the end, or gives it back where there are 8.
    pub fn try_push(&mut self, item: u8) -> Result<(), u8>
        ensures variant { IsOk result ↔ (length self.old < 8) }
        ensures ok { OnOk result (self.new ≡ self.old ++ item ∷ []) }
        ensures err { OnErr result (self.new ≡ self.old) }
        ensures given_back { IfErr result (λ c. c ≡ item) }
    {
        if self.cols.len() < 8 {
            self.cols.push(item);
            Ok(())
        } else {
            Err(item)
        }
    }
}

/// A site: a label for where tables lie and operators work.
#[derive(Debug, Drop)]
pub struct SiteDef {
    pub name: Name,
    /// Cost units for a row that an operator handles here.
    pub cpu: Num,
    /// Cost units for a byte that is shipped from or to this site.
    pub net: Num,
}

#[derive(Debug, Drop)]
pub struct ColumnDef {
    pub name: Name,
    pub kind: ColType,
    /// Bytes of a value, on average.
    pub width: Num,
    /// How many distinct values the column has.
    pub distinct: Num,
}

#[derive(Debug, Drop)]
pub struct TableDef {
    pub name: Name,
    pub site: Site,
    pub rows: Num,
    pub pages: Num,
    /// The name of the file with its rows: UTF-8, 1 to 255 bytes in an accepted catalogue.
    pub file: Bytes,
    /// 1 to 32 in an accepted catalogue.
    pub columns: List<ColumnDef>,
}

#[derive(Drop)]
pub struct IndexDef {
    pub name: Name,
    /// The position of its table in the catalogue.
    pub table: u8,
    pub columns: IndexColumns,
    pub pages: Num,
}

/// What is known of the tables. The numbers are estimates, and need not agree with the tables'
/// files.
#[derive(Drop)]
pub struct Catalogue {
    /// At most 8 in an accepted catalogue.
    pub sites: List<SiteDef>,
    /// At most 32 in an accepted catalogue.
    pub tables: List<TableDef>,
    /// At most 64 in an accepted catalogue.
    pub indexes: List<IndexDef>,
}
