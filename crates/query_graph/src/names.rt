// The names of a query's statement: those that aren't defined, and one that two quantifiers have.
ghost use Rattle.std.specs.Prelude.{◌≡◌, map, not, IfOk};
ghost use Rattle.std.specs.List.{list_all};
ghost use Rattle.star_model.specs.Vectors.{same_numbers};
ghost use Rattle.star_model.specs.WellFormed.{differ};
ghost use Rattle.star_model.specs.Names.{is_among};
ghost use Rattle.query_graph.specs.Queries.{quantifier_name};
ghost use Rattle.query_graph.specs.Words.{said_item, said_column, said_side, said_comparison, said};
ghost use Rattle.query_graph.specs.Faults.{is_table, is_site, column_names, quantifier_names};
ghost use Rattle.query_graph.specs.Quantifiers.{HoldsItems, offers, finds_column, finds_side, finds_comparison, finds_all, finds_names};
ghost use Rattle.query_graph.specs.NameTests.{is_site_if_any, are_known, quantifiers_differ};

use crate::lookup::{column_place, site_place, table_place};
use crate::words::{ColumnWords, ComparisonWords, ItemWords, QueryWords, SideWords};
use indexmap::IndexSet;
use star_model::catalogue::{Catalogue, TableDef};
use star_model::lists::Name;
use std::alloc::{AllocError, Global};

/// The name of a quantifier: its own, or that of its table.
pub fn quantifier_name(item: &ItemWords) -> &[u8]
    ensures { result.now ≡ quantifier_name (said_item item.now) }
{
    match &item.name {
        Some(name) => name.as_slice(),
        None => item.table.as_slice(),
    }
}

// The quantifiers' names, each with the name of its table. Several may have one name.
fn quantifiers<'a>(
    alloc: Global,
    items: &'a [ItemWords],
) -> Result<IndexSet<(&'a [u8], &'a [u8])>, AllocError>
    ensures { IfOk result (λ set. HoldsItems set (map said_item items.now)) }
{
    let mut set = IndexSet::new(alloc);
    for item in items {
        set.insert((quantifier_name(item), item.table.as_slice()))?;
    }
    Ok(set)
}

// Whether the table has a column of this name.
fn has_column(table: &TableDef, name: &[u8]) -> bool
    ensures { result ≡ is_among (column_names table.now) name.now }
{
    column_place(table, name).is_some()
}

// Whether the table has the column, and a quantifier of the column's ranges over it.
fn offers(quantifiers: &IndexSet<(&[u8], &[u8])>, column: &ColumnWords, table: &TableDef) -> bool
    ensures { result ≡ offers quantifiers.now (said_column column.now) table.now }
{
    has_column(table, column.column.as_slice())
        && quantifiers.contains(&(column.quantifier.as_slice(), table.name.as_slice()))
}

fn finds_column(
    quantifiers: &IndexSet<(&[u8], &[u8])>,
    tables: &[TableDef],
    column: &ColumnWords,
) -> bool
    ensures { result ≡ finds_column quantifiers.now tables.now (said_column column.now) }
{
    tables
        .iter()
        .any(|table| offers(quantifiers, column, table))
}

fn finds_side(quantifiers: &IndexSet<(&[u8], &[u8])>, tables: &[TableDef], side: &SideWords) -> bool
    ensures { result ≡ finds_side quantifiers.now tables.now (said_side side.now) }
{
    match side {
        SideWords::Column(column) => finds_column(quantifiers, tables, column),
        SideWords::Constant(_) => true,
    }
}

fn finds_comparison(
    quantifiers: &IndexSet<(&[u8], &[u8])>,
    tables: &[TableDef],
    comparison: &ComparisonWords,
) -> bool
    ensures { result ≡ finds_comparison quantifiers.now tables.now
        (said_comparison comparison.now) }
{
    finds_column(quantifiers, tables, &comparison.left)
        && finds_side(quantifiers, tables, &comparison.right)
}

fn finds_columns(
    quantifiers: &IndexSet<(&[u8], &[u8])>,
    tables: &[TableDef],
    columns: &[ColumnWords],
) -> bool
    ensures { result ≡ list_all (finds_column quantifiers.now tables.now)
        (map said_column columns.now) }
{
    columns
        .iter()
        .all(|column| finds_column(quantifiers, tables, column))
}

fn finds_comparisons(
    quantifiers: &IndexSet<(&[u8], &[u8])>,
    tables: &[TableDef],
    comparisons: &[ComparisonWords],
) -> bool
    ensures { result ≡ list_all (finds_comparison quantifiers.now tables.now)
        (map said_comparison comparisons.now) }
{
    comparisons.iter().all(|comparison| finds_comparison(quantifiers, tables, comparison))
}

// Whether all columns that the statement names are found.
fn finds_all(
    quantifiers: &IndexSet<(&[u8], &[u8])>,
    tables: &[TableDef],
    words: &QueryWords,
) -> bool
    ensures { result ≡ finds_all quantifiers.now tables.now (said words.now) }
{
    finds_columns(quantifiers, tables, words.select.as_slice())
        && finds_comparisons(quantifiers, tables, words.comparisons.as_slice())
        && finds_columns(quantifiers, tables, words.order.as_slice())
}

fn is_table(catalogue: &Catalogue, name: &[u8]) -> bool
    ensures { result ≡ is_table catalogue.now name.now }
{
    table_place(catalogue, name).is_some()
}

fn are_tables(catalogue: &Catalogue, items: &[ItemWords]) -> bool
    ensures { result ≡ list_all (λ i. is_table catalogue.now i.table) (map said_item items.now) }
{
    items
        .iter()
        .all(|item| is_table(catalogue, item.table.as_slice()))
}

fn is_site(catalogue: &Catalogue, name: &[u8]) -> bool
    ensures { result ≡ is_site catalogue.now name.now }
{
    site_place(catalogue, name).is_some()
}

fn is_site_if_any(catalogue: &Catalogue, site: &Option<Name>) -> bool
    ensures { result ≡ is_site_if_any catalogue.now site.now }
{
    match site {
        Some(name) => is_site(catalogue, name.as_slice()),
        None => true,
    }
}

// Whether all names of the statement are defined.
fn finds_names(
    catalogue: &Catalogue,
    quantifiers: &IndexSet<(&[u8], &[u8])>,
    words: &QueryWords,
) -> bool
    ensures { result ≡ finds_names catalogue.now quantifiers.now (said words.now) }
{
    are_tables(catalogue, words.items.as_slice())
        && finds_all(quantifiers, catalogue.tables.as_slice(), words)
        && is_site_if_any(catalogue, &words.site)
}

/// Whether the statement names a table, a column or a site that isn't defined.
pub fn names_unknown(
    alloc: Global,
    catalogue: &Catalogue,
    words: &QueryWords,
) -> Result<bool, AllocError>
    ensures { IfOk result (λ unknown. unknown ≡ not (are_known catalogue.now (said words.now))) }
{
    let quantifiers = quantifiers(alloc, words.items.as_slice())?;
    let known = finds_names(catalogue, &quantifiers, words);
    Ok(!known)
}

// Whether two of the items have one name.
fn have_one_name(alloc: Global, items: &[ItemWords]) -> Result<bool, AllocError>
    ensures { IfOk result (λ twice. twice ≡ not
        (differ same_numbers (quantifier_names (map said_item items.now)))) }
{
    let mut names = IndexSet::new(alloc);
    for item in items {
        let is_new = names.insert(quantifier_name(item))?;
        if !is_new {
            return Ok(true);
        }
    }
    Ok(false)
}

/// Whether two quantifiers have one name.
pub fn defines_twice(alloc: Global, words: &QueryWords) -> Result<bool, AllocError>
    ensures { IfOk result (λ twice. twice ≡ not (quantifiers_differ (said words.now))) }
{
    let twice = have_one_name(alloc, words.items.as_slice())?;
    Ok(twice)
}
