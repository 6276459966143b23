// Sets of predicates.

ghost use Rattle.std.specs.Prelude.{◌≡◌, ◌&&◌, ◌||◌, not};
ghost use Rattle.std.specs.List.{list_all, list_any};
ghost use Rattle.star_model.specs.Sets.{has, union, meet};
ghost use Rattle.star_model.specs.Vectors.{same_column};
ghost use Rattle.star_model.specs.Predicates.{columns_of, touches, lies_in, preds_where};
ghost use Rattle.star_model.specs.Meaning.{between_of, is_equality, indexable_in};
ghost use Rattle.star_model.specs.WellFormed.{WellFormedQuery};

use query_facts::{index_columns, is_equality, lies_in, touches};
use star_model::columns::{Col, ColList};
use star_model::query::{Operand, Pred, Query};
use star_model::sets::{PredSet, QuantSet};

fn lies_between(left: QuantSet, right: QuantSet, pred: &Pred) -> bool
    ensures { result ≡ (touches left pred.now && touches right pred.now
        && lies_in (union left right) pred.now) }
{
    touches(left, pred) && touches(right, pred) && lies_in(left.union(right), pred)
}

/// The predicates that touch both sets, and no quantifier outside them.
#[tactic(auto, using(crate::proofs::Gathering::gathering))]
pub fn between(query: &Query, left: QuantSet, right: QuantSet) -> PredSet
    requires { WellFormedQuery query.now }
    ensures { result ≡ between_of query.now left right }
{
    let mut found = PredSet::empty();
    for (n, pred) in query.preds.as_slice().iter().enumerate() {
        if lies_between(left, right, pred) {
            found = found.union(PredSet::single(n as u8));
        }
    }
    found
}

/// Those of these predicates that are equalities of columns of two different quantifiers.
#[tactic(auto, using(crate::proofs::Gathering::gathering))]
pub fn equalities(query: &Query, preds: PredSet) -> PredSet
    requires { WellFormedQuery query.now }
    ensures { result ≡ meet preds (preds_where query.now is_equality) }
{
    let mut found = PredSet::empty();
    for (n, pred) in query.preds.as_slice().iter().enumerate() {
        if is_equality(pred) {
            found = found.union(PredSet::single(n as u8));
        }
    }
    preds.meet(found)
}

// Whether it is one of the columns, if its quantifier is in the set.
fn is_covered(tables: QuantSet, columns: &ColList, column: Col) -> bool
    ensures { result ≡ (not (has tables column.quant.0)
        || list_any (same_column column) columns.now) }
{
    !tables.has(column.quant.0) || columns.has(column)
}

// Whether the predicate touches the set, and its columns of the set are among these.
fn is_served(tables: QuantSet, columns: &ColList, pred: &Pred) -> bool
    ensures { result ≡ (touches tables pred.now
        && list_all (λ c. not (has tables c.quant.0) || list_any (same_column c) columns.now)
        (columns_of pred.now)) }
{
    match &pred.right {
        Operand::Column(right) => {
            touches(tables, pred)
                && is_covered(tables, columns, pred.left)
                && is_covered(tables, columns, *right)
        }
        Operand::Constant(_) => touches(tables, pred) && is_covered(tables, columns, pred.left),
    }
}

/// Those of these predicates that touch the set, and whose columns of it are columns of the index
/// at this position. None unless the set has one quantifier, and the index is on its table.
#[tactic(auto, using(crate::proofs::Gathering::gathering))]
pub fn indexable(query: &Query, tables: QuantSet, index: u8, preds: PredSet) -> PredSet
    requires { WellFormedQuery query.now }
    ensures { result ≡ indexable_in query.now tables index preds }
{
    let columns = index_columns(query, tables, index);
    let mut found = PredSet::empty();
    for (n, pred) in query.preds.as_slice().iter().enumerate() {
        if is_served(tables, &columns, pred) {
            found = found.union(PredSet::single(n as u8));
        }
    }
    preds.meet(found)
}
