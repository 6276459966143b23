// When operators are applicable: a row of the table of operators each.

ghost use Rattle.std.specs.Prelude.{◌≡◌, [], ◌∷◌};
ghost use Rattle.star_model.specs.Operators.{may_apply, may_hash, is_sorted_by, each_touches};
ghost use Rattle.star_model.specs.WellFormed.{WellFormedQuery};
ghost use Rattle.lolepop.specs.Inputs.{vectors};

use crate::arguments::applied;
use crate::conditions::{
    all_link, are_disjoint, has_all, is_empty_list, is_single, none_reaches_outside, none_touches,
};
use crate::inputs::Inputs;
use crate::own_columns::{has_columns_of, index_serves};
use crate::predicates::preds_in;
use crate::results::tables_after;
use property_vector::canon;
use query_facts::{home, keys, touches};
use star_model::columns::ColList;
use star_model::plans::{Op, Props};
use star_model::query::Query;
use star_model::sets::PredSet;

/// Whether each predicate that the operator applies touches the tables of its result.
pub fn each_touches(query: &Query, op: &Op, inputs: &Inputs<'_>) -> bool
    requires { WellFormedQuery query.now }
    ensures { result ≡ each_touches query.now op.now (vectors inputs.now) }
{
    let tables = tables_after(op, inputs);
    preds_in(query, applied(op)).all(|pred| touches(tables, pred))
}

/// Whether the operator is applicable to these inputs, beside that its predicates touch its tables.
pub fn may_apply(query: &Query, op: &Op, inputs: &Inputs<'_>) -> bool
    requires { WellFormedQuery query.now }
    ensures { result ≡ may_apply query.now op.now (vectors inputs.now) }
{
    match inputs {
        Inputs::None => may_access(query, op),
        Inputs::One(input) => may_take(query, op, input),
        Inputs::Two(left, right) => may_join(query, op, left, right),
    }
}

fn may_access(query: &Query, op: &Op) -> bool
    requires { WellFormedQuery query.now }
    ensures { result ≡ may_apply query.now op.now [] }
{
    match op {
        Op::AccessHeap { over, .. } => is_single(*over),
        Op::AccessIndex { over, index, preds } => index_serves(query, *over, *index, *preds),
        Op::Get { .. }
        | Op::Filter { .. }
        | Op::Sort { .. }
        | Op::Store { .. }
        | Op::Ship { .. }
        | Op::Probe { .. }
        | Op::JoinNl { .. }
        | Op::JoinMerge { .. }
        | Op::JoinHash { .. }
        | Op::Intersect => false,
    }
}

fn may_take(query: &Query, op: &Op, input: &Props) -> bool
    requires { WellFormedQuery query.now }
    ensures { result ≡ may_apply query.now op.now (input.now ∷ []) }
{
    match op {
        Op::Get { over, .. } => is_single(*over)
            && input.tables == *over
            && input.site == home(query, *over),
        Op::Filter { preds } => has_columns_of(query, *preds, input),
        Op::Sort { cols } => !is_empty_list(cols) && has_all(&input.cols, cols),
        Op::Store { cols } => none_reaches_outside(query, input.preds, input.tables)
            && has_all(&input.cols, cols),
        Op::Ship { site } => *site != input.site,
        Op::Probe { cols, preds } => !is_empty_list(cols)
            && input.path.begins_with(cols)
            && has_columns_of(query, *preds, input),
        Op::AccessHeap { .. }
        | Op::AccessIndex { .. }
        | Op::JoinNl { .. }
        | Op::JoinMerge { .. }
        | Op::JoinHash { .. }
        | Op::Intersect => false,
    }
}

fn may_join(query: &Query, op: &Op, left: &Props, right: &Props) -> bool
    requires { WellFormedQuery query.now }
    ensures { result ≡ may_apply query.now op.now (left.now ∷ right.now ∷ []) }
{
    match op {
        Op::JoinNl { preds } => may_loop(query, left, right, *preds),
        Op::JoinMerge { merge, preds } => {
            may_hash(query, left, right, *merge, *preds)
                && is_sorted_by(query, &keys(query, *merge, left.tables), left)
                && is_sorted_by(query, &keys(query, *merge, right.tables), right)
        }
        Op::JoinHash { merge, preds } => may_hash(query, left, right, *merge, *preds),
        Op::Intersect => {
            left.tables == right.tables && is_single(left.tables) && left.site == right.site
        }
        Op::AccessHeap { .. }
        | Op::AccessIndex { .. }
        | Op::Get { .. }
        | Op::Filter { .. }
        | Op::Sort { .. }
        | Op::Store { .. }
        | Op::Ship { .. }
        | Op::Probe { .. } => false,
    }
}

// Whether the input's order begins with these columns, in the form that they have under its
// predicates.
fn is_sorted_by(query: &Query, columns: &ColList, input: &Props) -> bool
    requires { WellFormedQuery query.now }
    ensures { result ≡ is_sorted_by query.now columns.now input.now }
{
    input
        .order
        .begins_with(&canon(query, input.tables, input.preds, columns))
}

// A nested loop: the outer input has the columns of its own that the inner one's predicates use.
fn may_loop(query: &Query, outer: &Props, inner: &Props, preds: PredSet) -> bool
    requires { WellFormedQuery query.now }
    ensures { result ≡ may_apply query.now (Op.JoinNl preds) (outer.now ∷ inner.now ∷ []) }
{
    are_disjoint(outer.tables, inner.tables)
        && outer.site == inner.site
        && none_touches(query, outer.preds, inner.tables)
        && has_columns_of(query, preds.union(inner.preds), outer)
        && has_columns_of(query, preds, inner)
}

fn may_hash(query: &Query, left: &Props, right: &Props, merge: PredSet, preds: PredSet) -> bool
    requires { WellFormedQuery query.now }
    ensures { result ≡ may_hash query.now left.now right.now merge preds }
{
    let used = merge.union(preds);
    are_disjoint(left.tables, right.tables)
        && left.site == right.site
        && none_touches(query, left.preds, right.tables)
        && none_touches(query, right.preds, left.tables)
        && merge.len() != 0
        && all_link(query, left, right, merge)
        && has_columns_of(query, used, left)
        && has_columns_of(query, used, right)
}
