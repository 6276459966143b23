// Statements that name what none before them defines, and statements that define a name twice.
ghost use Rattle.std.specs.Prelude.{◌≡◌, ◌<◌, ◌^◌, List as Seq, [], ◌∷◌, ◌++◌, not, ◌||◌, length, map, OnOk, IfOk, MatchOption};
ghost use Rattle.std.specs.List.{list_all};
ghost use Rattle.catalogue.specs.Catalogues.{CatalogueStatement};
ghost use Rattle.spelling.specs.Firsts.{FirstAt, NoneHas};
ghost use Rattle.catalogue.specs.NameSets.{has_pair};
ghost use Rattle.catalogue.specs.Words.{said};
ghost use Rattle.star_model.specs.Vectors.{same_numbers};
ghost use Rattle.star_model.specs.WellFormed as spec;
ghost use Rattle.catalogue.specs.Defined.{names_unknown, is_defined, has_column_twice, NamesUnknown, DefinesTwice};
ghost use Rattle.catalogue.specs.Known.{Knows, Defines, with_columns, column_names};

use crate::name_set::{ColumnSet, NameSet};
use crate::words::{ColumnWords, StatementWords, number_of};
use star_model::lists::Name;
use std::alloc::{AllocError, Global};

/// What the statements so far define that later ones may name.
#[derive(Drop)]
pub struct Known<'a> {
    pub sites: NameSet<'a>,
    pub tables: NameSet<'a>,
    pub columns: ColumnSet<'a>,
}

impl<'a> Known<'a> {
    fn new(alloc: Global) -> Known<'a>
        ensures { Knows result [] }
    {
        Known {
            sites: NameSet::new(alloc),
            tables: NameSet::new(alloc),
            columns: ColumnSet::new(alloc),
        }
    }

    fn has_columns(&self, table: &[u8], columns: &[Name]) -> bool
        ensures { result ≡ list_all (has_pair self.now.columns table.now) columns.now }
    {
        columns
            .iter()
            .all(|column| self.columns.contains(table, column.as_slice()))
    }

    // Whether the statement names what isn't known.
    fn lacks_a_name_of(&self, statement: &StatementWords) -> bool
        ensures { (earlier : Seq CatalogueStatement) → Knows self.now earlier
            → result ≡ names_unknown earlier (said statement.now) }
    {
        match statement {
            StatementWords::Site(_) => false,
            StatementWords::Table(table) => !self.sites.contains(table.site.as_slice()),
            StatementWords::Index(index) => {
                let table = index.table.as_slice();
                !self.tables.contains(table) || !self.has_columns(table, index.columns.as_slice())
            }
        }
    }

    fn define_columns(
        &mut self,
        table: &'a [u8],
        columns: &'a [ColumnWords],
    ) -> Result<(), AllocError>
        ensures { OnOk result (self.new ≡ record self.old
            { columns = with_columns self.old.columns table.now columns.now }) }
    {
        for column in columns {
            self.columns.insert(table, column.name.as_slice())?;
        }
        Ok(())
    }

    fn define(&mut self, statement: &'a StatementWords) -> Result<(), AllocError>
        ensures { OnOk result ((earlier : Seq CatalogueStatement) → Knows self.old earlier
            → Knows self.new (earlier ++ said statement.now ∷ [])) }
    {
        match statement {
            StatementWords::Site(site) => {
                self.sites.insert(site.name.as_slice())?;
            }
            StatementWords::Table(table) => {
                self.tables.insert(table.name.as_slice())?;
                self.define_columns(table.name.as_slice(), table.columns.as_slice())?;
            }
            StatementWords::Index(_) => {}
        }
        Ok(())
    }
}

/// The number of the first statement that names what none before it defines, where there is one.
pub fn first_unknown(
    alloc: Global,
    statements: &[StatementWords],
) -> Result<Option<u32>, AllocError>
    requires { length statements.now < 2 ^ 32 }
    ensures { IfOk result (λ found. MatchOption found
        (NoneHas NamesUnknown (map said statements.now))
        (FirstAt NamesUnknown (map said statements.now))) }
{
    let mut known = Known::new(alloc);
    for (place, statement) in statements.iter().enumerate() {
        if known.lacks_a_name_of(statement) {
            return Ok(Some(number_of(place)));
        }
        known.define(statement)?;
    }
    Ok(None)
}

/// The names that the statements so far define, each kind for itself.
#[derive(Drop)]
pub struct Defined<'a> {
    pub sites: NameSet<'a>,
    pub tables: NameSet<'a>,
    pub indexes: NameSet<'a>,
}

fn names_differ(alloc: Global, names: &[Name]) -> Result<bool, AllocError>
    ensures { IfOk result (λ differ. differ ≡ spec.differ same_numbers names.now) }
{
    let mut seen = NameSet::new(alloc);
    for name in names {
        if !seen.insert(name.as_slice())? {
            return Ok(false);
        }
    }
    Ok(true)
}

fn columns_differ(alloc: Global, columns: &[ColumnWords]) -> Result<bool, AllocError>
    ensures { IfOk result (λ differ. differ ≡ spec.differ same_numbers (column_names columns.now)) }
{
    let mut seen = NameSet::new(alloc);
    for column in columns {
        if !seen.insert(column.name.as_slice())? {
            return Ok(false);
        }
    }
    Ok(true)
}

// Whether the table or the index has a column twice.
fn has_column_twice(alloc: Global, statement: &StatementWords) -> Result<bool, AllocError>
    ensures { IfOk result (λ twice. twice ≡ has_column_twice (said statement.now)) }
{
    match statement {
        StatementWords::Site(_) => Ok(false),
        StatementWords::Table(table) => {
            let differ = columns_differ(alloc, table.columns.as_slice())?;
            Ok(!differ)
        }
        StatementWords::Index(index) => {
            let differ = names_differ(alloc, index.columns.as_slice())?;
            Ok(!differ)
        }
    }
}

impl<'a> Defined<'a> {
    fn new(alloc: Global) -> Defined<'a>
        ensures { Defines result [] }
    {
        Defined {
            sites: NameSet::new(alloc),
            tables: NameSet::new(alloc),
            indexes: NameSet::new(alloc),
        }
    }

    // Adds the name that the statement defines, and answers whether it is new.
    fn define(&mut self, statement: &'a StatementWords) -> Result<bool, AllocError>
        ensures new { IfOk result (λ new. (earlier : Seq CatalogueStatement)
            → Defines self.old earlier → new ≡ not (is_defined earlier (said statement.now))) }
        ensures defined { OnOk result ((earlier : Seq CatalogueStatement) → Defines self.old earlier
            → Defines self.new (earlier ++ said statement.now ∷ [])) }
    {
        let new = match statement {
            StatementWords::Site(site) => self.sites.insert(site.name.as_slice())?,
            StatementWords::Table(table) => self.tables.insert(table.name.as_slice())?,
            StatementWords::Index(index) => self.indexes.insert(index.name.as_slice())?,
        };
        Ok(new)
    }

    // Adds the name that the statement defines, and answers whether it was there, or the statement
    // has a column twice.
    fn has_twice(
        &mut self,
        alloc: Global,
        statement: &'a StatementWords,
    ) -> Result<bool, AllocError>
        ensures twice { IfOk result (λ twice. (earlier : Seq CatalogueStatement)
            → Defines self.old earlier → twice
            ≡ (is_defined earlier (said statement.now) || has_column_twice (said statement.now))) }
        ensures defined { OnOk result ((earlier : Seq CatalogueStatement) → Defines self.old earlier
            → Defines self.new (earlier ++ said statement.now ∷ [])) }
    {
        let new = self.define(statement)?;
        let again = has_column_twice(alloc, statement)?;
        Ok(!new || again)
    }
}

/// The number of the first statement that defines what an earlier one defines, or that has a column
/// twice, where there is one.
pub fn first_twice(alloc: Global, statements: &[StatementWords]) -> Result<Option<u32>, AllocError>
    requires { length statements.now < 2 ^ 32 }
    ensures { IfOk result (λ found. MatchOption found
        (NoneHas DefinesTwice (map said statements.now))
        (FirstAt DefinesTwice (map said statements.now))) }
{
    let mut defined = Defined::new(alloc);
    for (place, statement) in statements.iter().enumerate() {
        if defined.has_twice(alloc, statement)? {
            return Ok(Some(number_of(place)));
        }
    }
    Ok(None)
}
