// The catalogue that statements mean, once they are judged.
ghost use Rattle.std.specs.Prelude.{◌≡◌, ◌≤◌, ◌<◌, false, length, map, position, Some, IsSome, OnOk, IfOk};
ghost use Rattle.star_model.specs.Vectors.{same_numbers};
ghost use Rattle.std.specs.List.{list_any};
ghost use Rattle.star_model.specs.Limits.{most_columns, most_index_columns, most_sites, most_tables};
ghost use Rattle.star_model.specs.Names.{place_of};
ghost use Rattle.spelling.specs.Names.{all_of};
ghost use Rattle.catalogue.specs.Catalogues.{Site as SiteStatement, Table, Index, table_from, with_statement, catalogue_of};
ghost use Rattle.catalogue.specs.Words.{said, site_of, column_of, table_of, index_of};
ghost use Rattle.catalogue.specs.LimitTests.{is_great_column, has_great_number};
ghost use Rattle.star_model.specs.Every.{Every};
ghost use Rattle.catalogue.specs.Resolving.{CanBeAdded, IsNarrow, resolved_index};
ghost use Rattle.catalogue.specs.Judged.{AreClear};

use crate::words::{ColumnWords, IndexWords, SiteWords, StatementWords, TableWords};
use star_model::catalogue::{Catalogue, ColumnDef, IndexColumns, IndexDef, SiteDef, TableDef};
use star_model::columns::Site;
use star_model::lists::{List, Name};
use star_model::num::Num;
use std::alloc::{AllocError, Global};

fn site_def(alloc: Global, site: &SiteWords) -> Result<SiteDef, AllocError>
    requires { has_great_number (SiteStatement (site_of site.now)) ≡ false }
    ensures { IfOk result (λ def. def ≡ site_of site.now) }
{
    Ok(SiteDef {
        name: site.name.copy(alloc)?,
        cpu: Num::cut(site.cpu),
        net: Num::cut(site.net),
    })
}

fn column_def(alloc: Global, column: &ColumnWords) -> Result<ColumnDef, AllocError>
    requires { is_great_column (column_of column.now) ≡ false }
    ensures { IfOk result (λ def. def ≡ column_of column.now) }
{
    Ok(ColumnDef {
        name: column.name.copy(alloc)?,
        kind: column.kind,
        width: Num::cut(column.width),
        distinct: Num::cut(column.distinct),
    })
}

fn column_defs(alloc: Global, columns: &[ColumnWords]) -> Result<List<ColumnDef>, AllocError>
    requires { list_any is_great_column (map column_of columns.now) ≡ false }
    ensures { IfOk result (λ defs. defs ≡ map column_of columns.now) }
{
    let mut defs = List::new(alloc);
    for column in columns {
        defs.push(column_def(alloc, column)?)?;
    }
    Ok(defs)
}

fn table_def(alloc: Global, site: Site, table: &TableWords) -> Result<TableDef, AllocError>
    requires { has_great_number (Table (table_of table.now)) ≡ false }
    ensures { IfOk result (λ def. def ≡ table_from site.0 (table_of table.now)) }
{
    let columns = column_defs(alloc, table.columns.as_slice())?;
    Ok(TableDef {
        name: table.name.copy(alloc)?,
        site,
        rows: Num::cut(table.rows),
        pages: Num::cut(table.pages),
        file: table.file.copy(alloc)?,
        columns,
    })
}

fn place_of_site(sites: &[SiteDef], name: &[u8]) -> Option<usize>
    ensures { result ≡ position (λ s. same_numbers name.now s.name) sites.now }
{
    sites.iter().position(|site| name == site.name.as_slice())
}

fn place_of_table(tables: &[TableDef], name: &[u8]) -> Option<usize>
    ensures { result ≡ position (λ t. same_numbers name.now t.name) tables.now }
{
    tables
        .iter()
        .position(|table| name == table.name.as_slice())
}

fn place_of_column(columns: &[ColumnDef], name: &[u8]) -> Option<usize>
    ensures { result ≡ position (λ d. same_numbers name.now d.name) columns.now }
{
    columns
        .iter()
        .position(|column| name == column.name.as_slice())
}

// The site of this name, which is defined.
fn site_named(sites: &[SiteDef], name: &[u8]) -> Site
    requires known { IsSome (place_of name.now (map (λ s. s.name) sites.now)) }
    requires few { length sites.now ≤ most_sites }
    ensures { place_of name.now (map (λ s. s.name) sites.now) ≡ Some result.0 }
{
    match place_of_site(sites, name) {
        Some(place) => Site(place as u8),
        None => unreachable!(),
    }
}

// The position of the table of this name, which is defined.
fn table_named(tables: &[TableDef], name: &[u8]) -> u8
    requires known { IsSome (place_of name.now (map (λ t. t.name) tables.now)) }
    requires few { length tables.now ≤ most_tables }
    ensures { place_of name.now (map (λ t. t.name) tables.now) ≡ Some result }
{
    match place_of_table(tables, name) {
        Some(place) => place as u8,
        None => unreachable!(),
    }
}

// The position of the column of this name, which is defined.
fn column_named(columns: &[ColumnDef], name: &[u8]) -> u8
    requires known { IsSome (place_of name.now (map (λ d. d.name) columns.now)) }
    requires few { length columns.now ≤ most_columns }
    ensures { place_of name.now (map (λ d. d.name) columns.now) ≡ Some result }
{
    match place_of_column(columns, name) {
        Some(place) => place as u8,
        None => unreachable!(),
    }
}

// The positions of the columns of these names, which are defined.
fn columns_named(columns: &[ColumnDef], names: &[Name]) -> IndexColumns
    requires known { IsSome (all_of (map (λ name. place_of name (map (λ d. d.name) columns.now))
        names.now)) }
    requires few { length columns.now ≤ most_columns }
    requires fit { length names.now ≤ most_index_columns }
    ensures { all_of (map (λ name. place_of name (map (λ d. d.name) columns.now)) names.now)
        ≡ Some result }
{
    let mut places = IndexColumns::new();
    for name in names {
        let place = column_named(columns, name.as_slice());
        match places.try_push(place) {
            Ok(()) => {}
            Err(_) => unreachable!(),
        }
    }
    places
}

// The index with the positions of its table and of its columns, which are defined.
fn index_def(alloc: Global, tables: &[TableDef], index: &IndexWords) -> Result<IndexDef, AllocError>
    requires known { IsSome (resolved_index tables.now (index_of index.now)) }
    requires few { length tables.now ≤ most_tables }
    requires narrow { Every IsNarrow tables.now }
    requires fit { length index.now.columns ≤ most_index_columns }
    requires small { has_great_number (Index (index_of index.now)) ≡ false }
    ensures { IfOk result (λ def. resolved_index tables.now (index_of index.now) ≡ Some def) }
{
    let place = table_named(tables, index.table.as_slice());
    let table = &tables[usize::from(place)];
    Ok(IndexDef {
        name: index.name.copy(alloc)?,
        table: place,
        columns: columns_named(table.columns.as_slice(), index.columns.as_slice()),
        pages: Num::cut(index.pages),
    })
}

// Adds what the statement defines.
fn add(
    alloc: Global,
    catalogue: &mut Catalogue,
    statement: &StatementWords,
) -> Result<(), AllocError>
    requires { CanBeAdded catalogue.old (said statement.now) }
    ensures { OnOk result (with_statement catalogue.old (said statement.now) ≡ Some catalogue.new) }
{
    match statement {
        StatementWords::Site(site) => {
            catalogue.sites.push(site_def(alloc, site)?)?;
        }
        StatementWords::Table(table) => {
            let site = site_named(catalogue.sites.as_slice(), table.site.as_slice());
            catalogue.tables.push(table_def(alloc, site, table)?)?;
        }
        StatementWords::Index(index) => {
            let def = index_def(alloc, catalogue.tables.as_slice(), index)?;
            catalogue.indexes.push(def)?;
        }
    }
    Ok(())
}

/// The catalogue that judged statements mean.
pub fn resolved(alloc: Global, statements: &[StatementWords]) -> Result<Catalogue, AllocError>
    requires { AreClear (map said statements.now) }
    ensures { IfOk result (λ c. catalogue_of (map said statements.now) ≡ Some c) }
{
    let mut catalogue = Catalogue {
        sites: List::new(alloc),
        tables: List::new(alloc),
        indexes: List::new(alloc),
    };
    for statement in statements {
        add(alloc, &mut catalogue, statement)?;
    }
    Ok(catalogue)
}
