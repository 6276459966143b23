// The predicates and the columns of a part of a query, and estimated numbers of rows.
ghost use Rattle.star_model.specs.WellFormed.{WellFormedQuery};

use crate::operators::quants;
use query_graph::{card, crossing, eligible, used};
use star_model::columns::{Col, ColSet, Quant};
use star_model::query::Query;
use star_model::sets::{PredSet, QuantSet};
use std::alloc::{AllocError, Global};

/// `card` and the estimated number of rows of the query.
pub fn estimated(alloc: Global, query: &Query) -> Result<String, AllocError>
    requires { WellFormedQuery query.now }
{
    let mut tables = QuantSet::empty();
    let mut preds = PredSet::empty();
    for n in 0..16 {
        if usize::from(n) < query.quants.len() {
            tables = tables.union(QuantSet::single(n));
        }
        if usize::from(n) < query.preds.len() {
            preds = preds.union(PredSet::single(n));
        }
    }
    let rows = card(query, tables, preds).get();
    format!(in alloc; "card {rows}")
}

// The numbers of the predicates of a set, each behind a space.
fn told_preds(alloc: Global, preds: PredSet) -> Result<String, AllocError> {
    let mut told = String::new(alloc);
    for n in 0..16 {
        if preds.has(n) {
            let number = n + 1;
            told.push_str(format!(in alloc; " {number}")?.as_str())?;
        }
    }
    Ok(told)
}

// The numbers of the columns of a set that are one quantifier's, each behind a space.
fn told_columns(alloc: Global, columns: &ColSet, quant: u8) -> Result<String, AllocError> {
    let mut told = String::new(alloc);
    for column in 0..32 {
        if columns.has(Col {
            quant: Quant(quant),
            column,
        }) {
            let number = column + 1;
            told.push_str(format!(in alloc; " {number}")?.as_str())?;
        }
    }
    Ok(told)
}

// What is told of a part of a query of two quantifiers.
fn told_part(alloc: Global, query: &Query, tables: QuantSet) -> Result<String, AllocError>
    requires { WellFormedQuery query.now }
{
    let own = eligible(query, tables);
    let shared = crossing(query, tables);
    let columns = used(query, tables);
    let rows = card(query, tables, own).get();
    let joined = card(query, tables, own.union(shared)).get();
    let own = told_preds(alloc, own)?;
    let shared = told_preds(alloc, shared)?;
    let first = told_columns(alloc, &columns, 0)?;
    let second = told_columns(alloc, &columns, 1)?;
    format!(in alloc;
        "eligible{own}; crossing{shared}; used{first};{second}; card {rows}, {joined}"
    )
}

/// What is told of the quantifiers of a text, of a query of two quantifiers: the predicates within
/// and across, the used columns of each quantifier, and the estimated rows with the predicates
/// within, and with all of these.
pub fn told(alloc: Global, query: &Query, text: &str) -> Result<String, AllocError>
    requires { WellFormedQuery query.now }
{
    match quants(text) {
        Some(tables) => told_part(alloc, query, tables),
        None => String::from_str(alloc, "not understood"),
    }
}
