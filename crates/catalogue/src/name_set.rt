// Sets of names that are lent, in which a name is found without a look at each.
ghost use Rattle.std.specs.Prelude.{◌≡◌, List as Seq, [], not, OnOk, IfOk};
ghost use Rattle.star_model.specs.Names.{is_among};
ghost use Rattle.catalogue.specs.NameSets.{with_name, has_pair, with_pair};

use indexmap::IndexSet;
use std::alloc::{AllocError, Global};
use std::marker::Model;

/// A set of names.
#[derive(Drop)]
pub struct NameSet<'a> {
    names: IndexSet<&'a [u8]>,
}

impl<'a> Model for NameSet<'a> {
    ghost use Rattle.std.specs.Prelude.{ℕ, map, List as Seq};

    ghost Value = { Seq (Seq ℕ) };

    ghost view = { λ s. map (λ name. name.now) s.names.keys };
}

impl<'a> NameSet<'a> {
    pub fn new(alloc: Global) -> NameSet<'a>
        ensures { result ≡ [] }
    {
        NameSet {
            names: IndexSet::new(alloc),
        }
    }

    pub fn contains(&self, name: &[u8]) -> bool
        ensures { result ≡ is_among self.now name.now }
    {
        self.names.contains(name)
    }

    /// Adds the name, and answers whether it is new.
    pub fn insert(&mut self, name: &'a [u8]) -> Result<bool, AllocError>
        ensures ok { OnOk result (self.new ≡ with_name self.old name.now) }
        ensures new { IfOk result (λ new. new ≡ not (is_among self.old name.now)) }
    {
        let new = self.names.insert(name)?;
        Ok(new)
    }
}

/// A set of columns, each with the name of its table.
#[derive(Drop)]
pub struct ColumnSet<'a> {
    columns: IndexSet<(&'a [u8], &'a [u8])>,
}

impl<'a> Model for ColumnSet<'a> {
    ghost use Rattle.std.specs.Prelude.{map, List as Seq};
    ghost use Rattle.catalogue.specs.NameSets.{NamePair};

    ghost Value = { Seq NamePair };

    ghost view = { λ s. map (λ column. (column.0.now, column.1.now)) s.columns.keys };
}

impl<'a> ColumnSet<'a> {
    pub fn new(alloc: Global) -> ColumnSet<'a>
        ensures { result ≡ [] }
    {
        ColumnSet {
            columns: IndexSet::new(alloc),
        }
    }

    pub fn contains(&self, table: &[u8], column: &[u8]) -> bool
        ensures { result ≡ has_pair self.now table.now column.now }
    {
        self.columns.contains(&(table, column))
    }

    /// Adds the column.
    pub fn insert(&mut self, table: &'a [u8], column: &'a [u8]) -> Result<(), AllocError>
        ensures { OnOk result (self.new ≡ with_pair self.old table.now column.now) }
    {
        self.columns.insert((table, column))?;
        Ok(())
    }
}
