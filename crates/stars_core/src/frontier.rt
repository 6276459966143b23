// The text of a frontier.
ghost use Rattle.std.specs.Prelude.{◌≡◌, ◌++◌, IfOk, OnOk};
ghost use Rattle.std.specs.List.{flat_map};
ghost use Rattle.star_model.specs.WellFormed.{WellFormedQuery};
ghost use Rattle.stars_core.specs.Frontier.{FrontierText, site_name, quantifier_name, column_name, column_text, further_columns, columns_text, yes_or_no, costs_text, place_text, lists_text, frontier_line};

use crate::plan::unplanned;
use crate::{Answer, Ending};
use query_graph::table_of;
use star_check::CheckedRules;
use star_expand::frontier;
use star_model::columns::{Col, ColList, Site};
use star_model::plans::Props;
use star_model::query::Query;
use std::alloc::{AllocError, Global};

// What is not there has the empty name.

fn site_name(query: &Query, site: Site) -> &[u8]
    ensures { result.now ≡ site_name query.now site }
{
    match query.catalogue.sites.as_slice().get(usize::from(site.0)) {
        Some(site) => site.name.as_slice(),
        None => b"",
    }
}

fn quantifier_name(query: &Query, quantifier: u8) -> &[u8]
    ensures { result.now ≡ quantifier_name query.now quantifier }
{
    match query.quants.as_slice().get(usize::from(quantifier)) {
        Some(quantifier) => quantifier.name.as_slice(),
        None => b"",
    }
}

fn column_name(query: &Query, column: Col) -> &[u8]
    ensures { result.now ≡ column_name query.now column }
{
    let Some(table) = table_of(query, column.quant.0) else {
        return b"";
    };
    match table.columns.as_slice().get(usize::from(column.column)) {
        Some(column) => column.name.as_slice(),
        None => b"",
    }
}

fn push_column(text: &mut Vec<u8>, query: &Query, column: Col) -> Result<(), AllocError>
    ensures { OnOk result (text.new.items ≡ text.old.items ++ column_text query.now column) }
{
    text.extend_from_slice(quantifier_name(query, column.quant.0))?;
    text.extend_from_slice(b".")?;
    text.extend_from_slice(column_name(query, column))
}

// The columns behind the first.
fn push_further(text: &mut Vec<u8>, query: &Query, columns: &[Col]) -> Result<(), AllocError>
    ensures { OnOk result (text.new.items ≡ text.old.items
        ++ further_columns query.now columns.now) }
{
    for column in columns {
        text.extend_from_slice(b", ")?;
        push_column(text, query, *column)?;
    }
    Ok(())
}

fn push_columns(text: &mut Vec<u8>, query: &Query, columns: &ColList) -> Result<(), AllocError>
    ensures { OnOk result (text.new.items ≡ text.old.items ++ columns_text query.now columns.now) }
{
    match columns.as_slice() {
        [] => Ok(()),
        [first, further @ ..] => {
            push_column(text, query, *first)?;
            push_further(text, query, further)
        }
    }
}

fn yes_or_no(is_so: bool) -> &'static [u8]
    ensures { result.now ≡ yes_or_no is_so }
{
    if is_so { b"yes" } else { b"no" }
}

fn push_costs(alloc: Global, text: &mut Vec<u8>, props: &Props) -> Result<(), AllocError>
    ensures { OnOk result (text.new.items ≡ text.old.items ++ costs_text props.now) }
{
    let cost = props.cost.get();
    let rescan = props.rescan.get();
    let cost = format!(in alloc; "cost {cost}")?;
    let rescan = format!(in alloc; " rescan {rescan}")?;
    text.extend_from_slice(cost.as_bytes())?;
    text.extend_from_slice(rescan.as_bytes())
}

fn push_place(text: &mut Vec<u8>, query: &Query, props: &Props) -> Result<(), AllocError>
    ensures { OnOk result (text.new.items ≡ text.old.items ++ place_text query.now props.now) }
{
    text.extend_from_slice(b" site ")?;
    text.extend_from_slice(site_name(query, props.site))?;
    text.extend_from_slice(b" temp ")?;
    text.extend_from_slice(yes_or_no(props.temp))
}

fn push_lists(text: &mut Vec<u8>, query: &Query, props: &Props) -> Result<(), AllocError>
    ensures { OnOk result (text.new.items ≡ text.old.items ++ lists_text query.now props.now) }
{
    text.extend_from_slice(b" order [")?;
    push_columns(text, query, &props.order)?;
    text.extend_from_slice(b"] path [")?;
    push_columns(text, query, &props.path)?;
    text.extend_from_slice(b"]")
}

// The line of a vector.
fn push_line(
    alloc: Global,
    text: &mut Vec<u8>,
    query: &Query,
    props: &Props,
) -> Result<(), AllocError>
    ensures { OnOk result (text.new.items ≡ text.old.items ++ frontier_line query.now props.now) }
{
    push_costs(alloc, text, props)?;
    push_place(text, query, props)?;
    push_lists(text, query, props)?;
    text.extend_from_slice(b"\n")
}

fn lines(alloc: Global, query: &Query, vectors: &[Props]) -> Result<Vec<u8>, AllocError>
    ensures { IfOk result (λ text. text.items ≡ flat_map (frontier_line query.now) vectors.now) }
{
    let mut text = Vec::new(alloc);
    for props in vectors {
        push_line(alloc, &mut text, query, props)?;
    }
    Ok(text)
}

/// How the search for the query's goal ends, and the text that tells it: a line for each vector of
/// the goal's frontier, in their order.
#[tactic(auto, using(crate::proofs::Endings::no_lines_told))]
pub fn frontier_query(
    alloc: Global,
    rules: &CheckedRules,
    query: &Query,
) -> Result<Answer, AllocError>
    requires { WellFormedQuery query.now }
    ensures { IfOk result (λ answer. FrontierText rules.now query.now answer.ending
        answer.text.items) }
{
    let vectors = frontier(alloc, rules, query)?;
    if vectors.len() == 0 {
        return unplanned(alloc);
    }
    Ok(Answer {
        ending: Ending::Done,
        text: lines(alloc, query, vectors.as_slice())?,
    })
}
