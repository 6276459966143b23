// Conditions on sets, lists and predicates, of which the rows of the operators are made.

ghost use Rattle.std.specs.Prelude.{◌≡◌};
ghost use Rattle.std.specs.List.{list_all};
ghost use Rattle.star_model.specs.Columns.{all_columns_in};
ghost use Rattle.star_model.specs.Predicates.{preds_in};
ghost use Rattle.star_model.specs.WellFormed.{WellFormedQuery};
ghost use Rattle.star_model.specs.Operators.{none_touches, none_reaches_outside, links, is_single, is_disjoint, is_empty_list};

use crate::predicates::preds_in;
use query_facts::{is_equality, lies_in, touches};
use star_model::columns::{ColList, ColSet};
use star_model::plans::Props;
use star_model::query::{Pred, Query};
use star_model::sets::{PredSet, QuantSet};

pub fn is_single(tables: QuantSet) -> bool
    ensures { result ≡ is_single tables }
{
    tables.len() == 1
}

pub fn are_disjoint(left: QuantSet, right: QuantSet) -> bool
    ensures { result ≡ is_disjoint left right }
{
    left.meet(right) == QuantSet::empty()
}

pub fn is_empty_list(columns: &ColList) -> bool
    ensures { result ≡ is_empty_list columns.now }
{
    columns.len() == 0
}

pub fn has_all(set: &ColSet, columns: &ColList) -> bool
    ensures { result ≡ all_columns_in set.now columns.now }
{
    columns.as_slice().iter().all(|column| set.has(*column))
}

/// Whether none of these predicates touches the set.
pub fn none_touches(query: &Query, preds: PredSet, tables: QuantSet) -> bool
    requires { WellFormedQuery query.now }
    ensures { result ≡ none_touches query.now preds tables }
{
    preds_in(query, preds).all(|pred| !touches(tables, pred))
}

/// Whether all quantifiers of these predicates are in the set.
pub fn none_reaches_outside(query: &Query, preds: PredSet, tables: QuantSet) -> bool
    requires { WellFormedQuery query.now }
    ensures { result ≡ none_reaches_outside query.now preds tables }
{
    preds_in(query, preds).all(|pred| lies_in(tables, pred))
}

fn links(left: &Props, right: &Props, pred: &Pred) -> bool
    ensures { result ≡ links left.now right.now pred.now }
{
    is_equality(pred) && touches(left.tables, pred) && touches(right.tables, pred)
}

/// Whether each of these predicates is an equality of a column of one input with one of the other.
pub fn all_link(query: &Query, left: &Props, right: &Props, preds: PredSet) -> bool
    requires { WellFormedQuery query.now }
    ensures { result ≡ list_all (links left.now right.now) (preds_in query.now preds) }
{
    preds_in(query, preds).all(|pred| links(left, right, pred))
}
