// Sets, columns and sites of a query as text.
use star_model::columns::{Col, Site};
use star_model::lists::Name;
use star_model::query::Query;
use star_model::sets::{PredSet, QuantSet};
use std::alloc::{AllocError, Global};

/// Adds a part behind a mark, which the first part has none of.
pub fn push_part(text: &mut String, mark: &str, part: &str) -> Result<(), AllocError> {
    if !text.is_empty() {
        text.push_str(mark)?;
    }
    text.push_str(part)
}

/// The numbers of a set's quantifiers, from 1, with a mark between.
pub fn quants_text(alloc: Global, set: QuantSet, mark: &str) -> Result<String, AllocError> {
    let mut text = String::new(alloc);
    for n in 0..32 {
        if set.has(n) {
            let number = format!(in alloc; "{}", n + 1)?;
            push_part(&mut text, mark, number.as_str())?;
        }
    }
    Ok(text)
}

/// The numbers of a set's predicates, from 1, with a mark between.
pub fn preds_text(alloc: Global, set: PredSet, mark: &str) -> Result<String, AllocError> {
    let mut text = String::new(alloc);
    for n in 0..32 {
        if set.has(n) {
            let number = format!(in alloc; "{}", n + 1)?;
            push_part(&mut text, mark, number.as_str())?;
        }
    }
    Ok(text)
}

// The names of a column's quantifier and of the column.
fn names_of(query: &Query, col: Col) -> Option<(&Name, &Name)> {
    let quant = query.quants.as_slice().get(col.quant.0 as usize)?;
    let table = query.catalogue.tables.as_slice().get(quant.table as usize)?;
    let column = table.columns.as_slice().get(col.column as usize)?;
    Some((&quant.name, &column.name))
}

/// The names of a column's quantifier and of the column, with `.` between.
pub fn column_text(alloc: Global, query: &Query, col: Col) -> Result<String, AllocError> {
    let Some((quant, column)) = names_of(query, col) else {
        return String::from_str(alloc, "no column");
    };
    let quant = String::from_utf8_lossy(alloc, quant.as_slice())?;
    let column = String::from_utf8_lossy(alloc, column.as_slice())?;
    format!(in alloc; "{quant}.{column}")
}

/// The columns of a list with a mark between.
pub fn list_text(
    alloc: Global,
    query: &Query,
    list: &[Col],
    mark: &str,
) -> Result<String, AllocError> {
    let mut text = String::new(alloc);
    for col in list {
        let column = column_text(alloc, query, *col)?;
        push_part(&mut text, mark, column.as_str())?;
    }
    Ok(text)
}

/// The name of a site.
pub fn site_text(alloc: Global, query: &Query, site: Site) -> Result<String, AllocError> {
    match query.catalogue.sites.as_slice().get(site.0 as usize) {
        Some(site) => String::from_utf8_lossy(alloc, site.name.as_slice()),
        None => String::from_str(alloc, "no site"),
    }
}
