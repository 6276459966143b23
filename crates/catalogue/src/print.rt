// Printing a catalogue.
ghost use Rattle.std.specs.Prelude.{◌≡◌, ◌<◌, true, nat_lt, length, map, slice_get, Some, IfOk, OnOk};
ghost use Rattle.std.specs.List.{list_all};
ghost use Rattle.spelling.specs.Lexemes.{comma, joined_by, bracketed};
ghost use Rattle.spelling.specs.Writing.{puts, ended, lines};
ghost use Rattle.catalogue.specs.Catalogues.{catalogue_lexemes, column_lexemes, name_lexemes, type_word, name_at, site_names, column_names, table_statement, index_statement, canonical};
ghost use Rattle.catalogue.specs.Catalogues as statement;
ghost use Rattle.star_model.specs.WellFormed.{WellFormedCatalogue, WellFormedTable, WellFormedIndex};

use spelling::Writer;
use star_model::catalogue::{Catalogue, ColType, ColumnDef, IndexDef, SiteDef, TableDef};
use star_model::columns::Site;
use std::alloc::{AllocError, Global};

#[tactic(auto, using(spelling::proofs::Laws::writing))]
fn print_site(out: &mut Writer, site: &SiteDef) -> Result<(), AllocError>
    ensures { OnOk result (out.new ≡ ended (puts out.old
        (catalogue_lexemes (statement.Site site.now)))) }
{
    out.word(b"site")?;
    out.word(site.name.as_slice())?;
    out.word(b"cpu")?;
    out.number(site.cpu.get())?;
    out.word(b"net")?;
    out.number(site.net.get())?;
    out.end_statement()
}

fn type_word(kind: ColType) -> &'static [u8]
    ensures { result.now ≡ type_word kind }
{
    match kind {
        ColType::Int => b"int",
        ColType::Text => b"text",
    }
}

#[tactic(auto, using(spelling::proofs::Laws::writing))]
fn print_column(out: &mut Writer, column: &ColumnDef) -> Result<(), AllocError>
    ensures { OnOk result (out.new ≡ puts out.old (column_lexemes column.now)) }
{
    out.word(column.name.as_slice())?;
    out.word(type_word(column.kind))?;
    out.word(b"width")?;
    out.number(column.width.get())?;
    out.word(b"distinct")?;
    out.number(column.distinct.get())
}

// The columns, with a comma between two.
fn print_column_list(out: &mut Writer, columns: &[ColumnDef]) -> Result<(), AllocError>
    ensures { OnOk result (out.new ≡ puts out.old
        (joined_by comma (map column_lexemes columns.now))) }
{
    let [first, later @ ..] = columns else {
        return Ok(());
    };
    print_column(out, first)?;
    for column in later {
        out.symbol(b",")?;
        print_column(out, column)?;
    }
    Ok(())
}

// The columns between brackets.
#[tactic(auto, using(spelling::proofs::Laws::writing))]
fn print_columns(out: &mut Writer, columns: &[ColumnDef]) -> Result<(), AllocError>
    ensures { OnOk result (out.new ≡ puts out.old
        (bracketed (joined_by comma (map column_lexemes columns.now)))) }
{
    out.symbol(b"(")?;
    print_column_list(out, columns)?;
    out.symbol(b")")
}

fn site_name(catalogue: &Catalogue, site: Site) -> &[u8]
    requires { site.0 < length catalogue.now.sites }
    ensures { result.now ≡ name_at (site_names catalogue.now) site.0 }
{
    catalogue.sites.as_slice()[site.0 as usize].name.as_slice()
}

#[tactic(auto, unfolding(spelling::specs::Writing::puts))]
fn print_table(out: &mut Writer, catalogue: &Catalogue, table: &TableDef) -> Result<(), AllocError>
    requires { WellFormedTable (length catalogue.now.sites) table.now }
    ensures { OnOk result (out.new ≡ ended (puts out.old
        (catalogue_lexemes (table_statement catalogue.now table.now)))) }
{
    out.word(b"table")?;
    out.word(table.name.as_slice())?;
    out.word(b"at")?;
    out.word(site_name(catalogue, table.site))?;
    out.word(b"rows")?;
    out.number(table.rows.get())?;
    out.word(b"pages")?;
    out.number(table.pages.get())?;
    out.word(b"file")?;
    out.text(table.file.as_slice())?;
    print_columns(out, table.columns.as_slice())?;
    out.end_statement()
}

fn column_name(table: &TableDef, column: u8) -> &[u8]
    requires { column < length table.now.columns }
    ensures { result.now ≡ name_at (column_names table.now) column }
{
    table.columns.as_slice()[column as usize].name.as_slice()
}

// The names of columns of the table, with a comma between two.
fn print_name_list(out: &mut Writer, table: &TableDef, columns: &[u8]) -> Result<(), AllocError>
    requires { list_all (λ c. nat_lt c (length table.now.columns)) columns.now ≡ true }
    ensures { OnOk result (out.new ≡ puts out.old
        (joined_by comma (map name_lexemes (map (name_at (column_names table.now)) columns.now)))) }
{
    let [first, later @ ..] = columns else {
        return Ok(());
    };
    out.word(column_name(table, *first))?;
    for column in later {
        out.symbol(b",")?;
        out.word(column_name(table, *column))?;
    }
    Ok(())
}

// The names of columns of the table, between brackets.
#[tactic(auto, using(spelling::proofs::Laws::writing))]
fn print_column_names(out: &mut Writer, table: &TableDef, columns: &[u8]) -> Result<(), AllocError>
    requires { list_all (λ c. nat_lt c (length table.now.columns)) columns.now ≡ true }
    ensures { OnOk result (out.new ≡ puts out.old
        (bracketed (joined_by comma (map name_lexemes
        (map (name_at (column_names table.now)) columns.now))))) }
{
    out.symbol(b"(")?;
    print_name_list(out, table, columns)?;
    out.symbol(b")")
}

fn table_at(catalogue: &Catalogue, table: u8) -> &TableDef
    requires { table < length catalogue.now.tables }
    ensures { slice_get catalogue.now.tables table ≡ Some result.now }
{
    &catalogue.tables.as_slice()[table as usize]
}

#[tactic(auto, using(spelling::proofs::Laws::writing))]
fn print_index(out: &mut Writer, catalogue: &Catalogue, index: &IndexDef) -> Result<(), AllocError>
    requires { WellFormedIndex catalogue.now.tables index.now }
    ensures { OnOk result (out.new ≡ ended (puts out.old
        (catalogue_lexemes (index_statement catalogue.now index.now)))) }
{
    let table = table_at(catalogue, index.table);
    out.word(b"index")?;
    out.word(index.name.as_slice())?;
    out.word(b"on")?;
    out.word(table.name.as_slice())?;
    print_column_names(out, table, index.columns.as_slice())?;
    out.word(b"pages")?;
    out.number(index.pages.get())?;
    out.end_statement()
}

fn print_sites(out: &mut Writer, sites: &[SiteDef]) -> Result<(), AllocError>
    ensures { OnOk result (out.new ≡ lines out.old
        (map catalogue_lexemes (map statement.Site sites.now))) }
{
    for site in sites {
        print_site(out, site)?;
    }
    Ok(())
}

fn print_tables(out: &mut Writer, catalogue: &Catalogue) -> Result<(), AllocError>
    requires { WellFormedCatalogue catalogue.now }
    ensures { OnOk result (out.new ≡ lines out.old
        (map catalogue_lexemes (map (table_statement catalogue.now) catalogue.now.tables))) }
{
    for table in catalogue.tables.as_slice() {
        print_table(out, catalogue, table)?;
    }
    Ok(())
}

fn print_indexes(out: &mut Writer, catalogue: &Catalogue) -> Result<(), AllocError>
    requires { WellFormedCatalogue catalogue.now }
    ensures { OnOk result (out.new ≡ lines out.old
        (map catalogue_lexemes (map (index_statement catalogue.now) catalogue.now.indexes))) }
{
    for index in catalogue.indexes.as_slice() {
        print_index(out, catalogue, index)?;
    }
    Ok(())
}

/// The text that spells the catalogue, in canonical layout: its sites, then its tables, then its
/// indexes, each in order and each on a line of its own.
pub fn print_catalogue(alloc: Global, catalogue: &Catalogue) -> Result<Vec<u8>, AllocError>
    requires { WellFormedCatalogue catalogue.now }
    ensures { IfOk result (λ text. text.items ≡ canonical catalogue.now) }
{
    let mut out = Writer::new(alloc);
    print_sites(&mut out, catalogue.sites.as_slice())?;
    print_tables(&mut out, catalogue)?;
    print_indexes(&mut out, catalogue)?;
    Ok(out.into_bytes())
}
