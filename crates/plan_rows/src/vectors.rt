// What the operators of a text make, one after another: vectors of properties, and these as text,
// as `tables {1} cols [e.id] preds {} order [] site hq temp no path [] card 1 cost 2 rescan 2`.
ghost use Rattle.star_model.specs.WellFormed.{WellFormedQuery};

use crate::names::{column_text, list_text, preds_text, push_part, quants_text, site_text};
use crate::operators::{input_count, operator};
use lolepop::step;
use star_model::columns::{Col, ColSet, Quant};
use star_model::costs::Costs;
use star_model::plans::{Op, Props};
use star_model::query::Query;
use std::alloc::{AllocError, Global};

// Adds the columns of one quantifier.
fn push_columns(
    text: &mut String,
    alloc: Global,
    query: &Query,
    set: &ColSet,
    quant: u8,
) -> Result<(), AllocError> {
    for column in 0..32 {
        let col = Col {
            quant: Quant(quant),
            column,
        };
        if set.has(col) {
            let column = column_text(alloc, query, col)?;
            push_part(text, ",", column.as_str())?;
        }
    }
    Ok(())
}

fn set_text(alloc: Global, query: &Query, set: &ColSet) -> Result<String, AllocError> {
    let mut text = String::new(alloc);
    for quant in 0..12 {
        push_columns(&mut text, alloc, query, set, quant)?;
    }
    Ok(text)
}

// The properties but for the numbers.
fn relation_text(alloc: Global, query: &Query, vector: &Props) -> Result<String, AllocError> {
    let tables = quants_text(alloc, vector.tables, ",")?;
    let cols = set_text(alloc, query, &vector.cols)?;
    let preds = preds_text(alloc, vector.preds, ",")?;
    let order = list_text(alloc, query, vector.order.as_slice(), ",")?;
    let site = site_text(alloc, query, vector.site)?;
    let temp = if vector.temp { "yes" } else { "no" };
    let path = list_text(alloc, query, vector.path.as_slice(), ",")?;
    format!(in alloc;
        "tables {{{tables}}} cols [{cols}] preds {{{preds}}} order [{order}] site {site} temp {temp} path [{path}]"
    )
}

// The text of a vector for a query.
fn spoken(alloc: Global, query: &Query, vector: &Props) -> Result<String, AllocError> {
    let relation = relation_text(alloc, query, vector)?;
    let card = vector.card.get();
    let cost = vector.cost.get();
    let rescan = vector.rescan.get();
    format!(in alloc; "{relation} card {card} cost {cost} rescan {rescan}")
}

// Applies the operator to the last vectors, and puts its vector in their place. Whether it is
// applicable.
fn apply(made: &mut Vec<Props>, query: &Query, costs: &Costs, op: &Op) -> Result<bool, AllocError>
    requires { WellFormedQuery query.now }
{
    let first = made.len().saturating_sub(input_count(op));
    let Some(vector) = step(query, costs, op, &made.as_slice()[first..]) else {
        return Ok(false);
    };
    made.truncate(first);
    made.push(vector)?;
    Ok(true)
}

/// Applies the operators of a text. Whether each is understood and applicable.
pub fn apply_all(
    made: &mut Vec<Props>,
    query: &Query,
    costs: &Costs,
    text: &str,
) -> Result<bool, AllocError>
    requires { WellFormedQuery query.now }
{
    for part in text.split("; ") {
        let Some(op) = operator(query, part) else {
            return Ok(false);
        };
        if !apply(made, query, costs, &op)? {
            return Ok(false);
        }
    }
    Ok(true)
}

/// The vector of the plan of a text, or `none` where its last operator isn't applicable.
pub fn told(alloc: Global, query: &Query, costs: &Costs, text: &str) -> Result<String, AllocError>
    requires { WellFormedQuery query.now }
{
    let mut made = Vec::new(alloc);
    let (inputs, last) = text.rsplit_once("; ").unwrap_or(("", text));
    if !inputs.is_empty() && !apply_all(&mut made, query, costs, inputs)? {
        return String::from_str(alloc, "no input");
    }
    let Some(op) = operator(query, last) else {
        return String::from_str(alloc, "not understood");
    };
    if !apply(&mut made, query, costs, &op)? {
        return String::from_str(alloc, "none");
    }
    match made.as_slice() {
        [vector] => spoken(alloc, query, vector),
        _ => String::from_str(alloc, "several plans"),
    }
}
