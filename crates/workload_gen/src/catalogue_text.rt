// The catalogue.

ghost use Rattle.std.specs.Prelude.{◌≡◌, IfOk, OnOk, map};
ghost use Rattle.catalogue.specs.Catalogues.{Table, Index, column_lexemes, catalogue_lexemes};
ghost use Rattle.spelling.specs.Lexemes.{comma, joined_by, bracketed};
ghost use Rattle.spelling.specs.Writing.{puts, ended, lines};
ghost use Rattle.workload_gen.specs.CatalogueText.{site_statement, integer_column, columns_of, table_part, index_part, table_statements, statements_from, catalogue_text};
ghost use Rattle.workload_gen.specs.Names.{file_name};

use crate::names::numbered;
use crate::tables::DrawnTable;
use spelling::Writer;
use std::alloc::{AllocError, Global};

#[tactic(auto, unfolding(spelling::specs::Writing::puts))]
fn print_site(out: &mut Writer) -> Result<(), AllocError>
    ensures { OnOk result (out.new ≡ ended (puts out.old (catalogue_lexemes site_statement))) }
{
    out.word(b"site")?;
    out.word(b"hq")?;
    out.word(b"cpu")?;
    out.number(1)?;
    out.word(b"net")?;
    out.number(1)?;
    out.end_statement()
}

#[tactic(auto, using(spelling::proofs::Laws::writing))]
fn print_column(out: &mut Writer, name: &[u8], distinct: u64) -> Result<(), AllocError>
    ensures { OnOk result (out.new
        ≡ puts out.old (column_lexemes (integer_column name.now distinct))) }
{
    out.word(name)?;
    out.word(b"int")?;
    out.word(b"width")?;
    out.number(8)?;
    out.word(b"distinct")?;
    out.number(distinct)
}

// The columns between brackets.
#[tactic(auto, unfolding(spelling::specs::Writing::puts))]
fn print_columns(out: &mut Writer, table: &DrawnTable) -> Result<(), AllocError>
    ensures { OnOk result (out.new ≡ puts out.old
        (bracketed (joined_by comma (map column_lexemes (columns_of table.now))))) }
{
    out.symbol(b"(")?;
    print_column(out, b"id", table.rows)?;
    out.symbol(b",")?;
    print_column(out, b"prev", table.rows_before)?;
    out.symbol(b")")
}

fn file_name(alloc: Global, number: usize) -> Result<Vec<u8>, AllocError>
    ensures { IfOk result (λ name. name.items ≡ file_name number) }
{
    let mut name = numbered(alloc, b't', number)?;
    name.extend_from_slice(b".csv")?;
    Ok(name)
}

#[tactic(auto, unfolding(spelling::specs::Writing::puts))]
fn print_table(
    alloc: Global,
    out: &mut Writer,
    number: usize,
    table: &DrawnTable,
) -> Result<(), AllocError>
    ensures { OnOk result (out.new ≡ ended (puts out.old
        (catalogue_lexemes (Table (table_part number table.now))))) }
{
    let name = numbered(alloc, b't', number)?;
    let file = file_name(alloc, number)?;
    out.word(b"table")?;
    out.word(name.as_slice())?;
    out.word(b"at")?;
    out.word(b"hq")?;
    out.word(b"rows")?;
    out.number(table.rows)?;
    out.word(b"pages")?;
    out.number(table.pages)?;
    out.word(b"file")?;
    out.text(file.as_slice())?;
    print_columns(out, table)?;
    out.end_statement()
}

#[tactic(auto, unfolding(spelling::specs::Writing::puts))]
fn print_index(alloc: Global, out: &mut Writer, number: usize) -> Result<(), AllocError>
    ensures { OnOk result (out.new ≡ ended (puts out.old
        (catalogue_lexemes (Index (index_part number))))) }
{
    let name = numbered(alloc, b'x', number)?;
    let table = numbered(alloc, b't', number)?;
    out.word(b"index")?;
    out.word(name.as_slice())?;
    out.word(b"on")?;
    out.word(table.as_slice())?;
    out.symbol(b"(")?;
    out.word(b"prev")?;
    out.symbol(b",")?;
    out.word(b"id")?;
    out.symbol(b")")?;
    out.word(b"pages")?;
    out.number(1)?;
    out.end_statement()
}

// The table of this number, and its index if it has one.
fn print_table_and_index(
    alloc: Global,
    out: &mut Writer,
    number: usize,
    table: &DrawnTable,
) -> Result<(), AllocError>
    ensures { OnOk result (out.new
        ≡ lines out.old (map catalogue_lexemes (table_statements number table.now))) }
{
    print_table(alloc, out, number, table)?;
    if table.is_indexed {
        print_index(alloc, out, number)?;
    }
    Ok(())
}

fn print_tables(alloc: Global, out: &mut Writer, tables: &[DrawnTable]) -> Result<(), AllocError>
    ensures { OnOk result (out.new
        ≡ lines out.old (map catalogue_lexemes (statements_from 1 tables.now))) }
{
    for (index, table) in tables.iter().enumerate() {
        print_table_and_index(alloc, out, index + 1, table)?;
    }
    Ok(())
}

/// The text of the catalogue that has these tables.
pub fn catalogue_text(alloc: Global, tables: &[DrawnTable]) -> Result<Vec<u8>, AllocError>
    ensures { IfOk result (λ text. text.items ≡ catalogue_text tables.now) }
{
    let mut out = Writer::new(alloc);
    print_site(&mut out)?;
    print_tables(alloc, &mut out, tables)?;
    Ok(out.into_bytes())
}
