// The properties of operators' results, but for their two costs: a column of the table of operators
// each.

ghost use Rattle.std.specs.Prelude.{◌≡◌, true};
ghost use Rattle.star_model.specs.Operators.{tables_after, preds_after, sorted_by, order_after, site_after, temp_after, path_after, cols_after, may_apply, unpriced};
ghost use Rattle.star_model.specs.WellFormed.{WellFormedQuery};
ghost use Rattle.lolepop.specs.Inputs.{vectors};
ghost use Rattle.lolepop.specs.UsedColumns.{used_among};

use crate::arguments::applied;
use crate::inputs::Inputs;
use property_vector::canon;
use query_facts::{card, home, index_columns, used};
use star_model::columns::{ColList, ColSet, Site};
use star_model::num::Num;
use star_model::plans::{Op, Props};
use star_model::query::Query;
use star_model::sets::{PredSet, QuantSet};

pub fn tables_after(op: &Op, inputs: &Inputs<'_>) -> QuantSet
    ensures { result ≡ tables_after op.now (vectors inputs.now) }
{
    match op {
        Op::AccessHeap { over, .. } | Op::AccessIndex { over, .. } | Op::Get { over, .. } => *over,
        Op::Filter { .. }
        | Op::Sort { .. }
        | Op::Store { .. }
        | Op::Ship { .. }
        | Op::Probe { .. }
        | Op::JoinNl { .. }
        | Op::JoinMerge { .. }
        | Op::JoinHash { .. }
        | Op::Intersect => inputs.tables(),
    }
}

fn preds_after(op: &Op, inputs: &Inputs<'_>) -> PredSet
    ensures { result ≡ preds_after op.now (vectors inputs.now) }
{
    inputs.preds_beside(applied(op))
}

// The columns by which the rows ascend.
fn sorted_by(query: &Query, op: &Op, inputs: &Inputs<'_>) -> ColList
    ensures { result ≡ sorted_by query.now op.now (vectors inputs.now) }
{
    match op {
        Op::AccessHeap { .. } | Op::JoinHash { .. } => ColList::new(),
        Op::AccessIndex { over, index, .. } => index_columns(query, *over, *index),
        Op::Sort { cols } | Op::Probe { cols, .. } => cols.copied(),
        Op::Get { .. }
        | Op::Filter { .. }
        | Op::Store { .. }
        | Op::Ship { .. }
        | Op::JoinNl { .. }
        | Op::JoinMerge { .. }
        | Op::Intersect => inputs.first_order(),
    }
}

// Their form under the predicates of the result. That of no columns is none.
#[tactic(auto, unfolding(star_model::specs::Canon::canon))]
fn order_after(query: &Query, op: &Op, inputs: &Inputs<'_>) -> ColList
    requires { WellFormedQuery query.now }
    ensures { result ≡ order_after query.now op.now (vectors inputs.now) }
{
    let columns = sorted_by(query, op, inputs);
    if columns.len() == 0 {
        return columns;
    }
    canon(
        query,
        tables_after(op, inputs),
        preds_after(op, inputs),
        &columns,
    )
}

fn site_after(query: &Query, op: &Op, inputs: &Inputs<'_>) -> Site
    ensures { result ≡ site_after query.now op.now (vectors inputs.now) }
{
    match op {
        Op::AccessHeap { over, .. } | Op::AccessIndex { over, .. } => home(query, *over),
        Op::Ship { site } => *site,
        Op::Get { .. }
        | Op::Filter { .. }
        | Op::Sort { .. }
        | Op::Store { .. }
        | Op::Probe { .. }
        | Op::JoinNl { .. }
        | Op::JoinMerge { .. }
        | Op::JoinHash { .. }
        | Op::Intersect => inputs.first_site(),
    }
}

fn temp_after(op: &Op) -> bool
    ensures { result ≡ temp_after op.now }
{
    match op {
        Op::Store { .. } => true,
        Op::AccessHeap { .. }
        | Op::AccessIndex { .. }
        | Op::Get { .. }
        | Op::Filter { .. }
        | Op::Sort { .. }
        | Op::Ship { .. }
        | Op::Probe { .. }
        | Op::JoinNl { .. }
        | Op::JoinMerge { .. }
        | Op::JoinHash { .. }
        | Op::Intersect => false,
    }
}

fn path_after(op: &Op) -> ColList
    ensures { result ≡ path_after op.now }
{
    match op {
        Op::Store { cols } => cols.copied(),
        Op::AccessHeap { .. }
        | Op::AccessIndex { .. }
        | Op::Get { .. }
        | Op::Filter { .. }
        | Op::Sort { .. }
        | Op::Ship { .. }
        | Op::Probe { .. }
        | Op::JoinNl { .. }
        | Op::JoinMerge { .. }
        | Op::JoinHash { .. }
        | Op::Intersect => ColList::new(),
    }
}

// The columns of the list that the query uses, of the set's quantifiers.
#[tactic(auto, using(crate::proofs::UsedColumns::used_rules))]
fn used_among(query: &Query, tables: QuantSet, list: &ColList) -> ColSet
    requires { WellFormedQuery query.now }
    ensures { result ≡ used_among query.now tables list.now }
{
    let used = used(query, tables);
    let mut found = ColSet::empty();
    for column in list.as_slice() {
        if used.has(*column) {
            found.insert(*column);
        }
    }
    found
}

#[tactic(auto, using(crate::proofs::ArityLaws::has_input), unfolding(crate::specs::UsedColumns::used_among))]
fn cols_after(query: &Query, op: &Op, inputs: &Inputs<'_>) -> ColSet
    requires query { WellFormedQuery query.now }
    requires applicable { may_apply query.now op.now (vectors inputs.now) ≡ true }
    ensures { result ≡ cols_after query.now op.now (vectors inputs.now) }
{
    match op {
        Op::AccessHeap { over, .. } | Op::Get { over, .. } => used(query, *over),
        Op::AccessIndex { over, index, .. } => used_among(
            query,
            *over,
            &index_columns(query, *over, *index),
        ),
        Op::Filter { .. }
        | Op::Sort { .. }
        | Op::Store { .. }
        | Op::Ship { .. }
        | Op::Probe { .. }
        | Op::JoinNl { .. }
        | Op::JoinMerge { .. }
        | Op::JoinHash { .. }
        | Op::Intersect => inputs.cols(),
    }
}

/// The vector of an applicable operator's result, with costs of 0.
pub fn unpriced(query: &Query, op: &Op, inputs: &Inputs<'_>) -> Props
    requires query { WellFormedQuery query.now }
    requires applicable { may_apply query.now op.now (vectors inputs.now) ≡ true }
    ensures { result ≡ unpriced query.now op.now (vectors inputs.now) }
{
    let tables = tables_after(op, inputs);
    let preds = preds_after(op, inputs);
    Props {
        tables,
        cols: cols_after(query, op, inputs),
        preds,
        order: order_after(query, op, inputs),
        site: site_after(query, op, inputs),
        temp: temp_after(op),
        path: path_after(op),
        card: card(query, tables, preds),
        cost: Num::cut(0),
        rescan: Num::cut(0),
    }
}
