// The columns that predicates have in a set of quantifiers, and whether they are there.

ghost use Rattle.std.specs.Prelude.{◌≡◌, ◌<◌, ◌++◌, [], ◌∷◌, length, if◌then◌else◌};
ghost use Rattle.std.specs.List.{list_all, list_any};
ghost use Rattle.star_model.specs.Limits.{most_in_order};
ghost use Rattle.star_model.specs.Sets.{has};
ghost use Rattle.star_model.specs.Columns.{all_columns_in};
ghost use Rattle.star_model.specs.Predicates.{preds_in};
ghost use Rattle.star_model.specs.Vectors.{same_column};
ghost use Rattle.star_model.specs.WellFormed.{WellFormedQuery};
ghost use Rattle.star_model.specs.Operators.{has_columns_of, own_columns, index_serves};
ghost use Rattle.lolepop.specs.OwnColumns.{own_in};

use crate::conditions::{has_all, is_single};
use crate::predicates::preds_in;
use query_facts::{index_columns, is_index_on};
use star_model::columns::{Col, ColList, ColSet};
use star_model::plans::Props;
use star_model::query::{Operand, Pred, Query};
use star_model::sets::{PredSet, QuantSet};

fn add_own(own: &mut ColList, tables: QuantSet, column: Col)
    requires { length own.old < most_in_order }
    ensures { own.new ≡ own.old ++ (if has tables column.quant.0 then column ∷ [] else []) }
{
    if tables.has(column.quant.0) {
        let pushed = own.try_push(column);
        prove!(pushed.is_ok());
    }
}

// The columns of the predicate whose quantifiers are in the set.
fn own_columns(tables: QuantSet, pred: &Pred) -> ColList
    ensures { result ≡ own_in tables pred.now }
{
    let mut own = ColList::new();
    add_own(&mut own, tables, pred.left);
    if let Operand::Column(right) = &pred.right {
        add_own(&mut own, tables, *right);
    }
    own
}

// Whether the set has the columns of these predicates whose quantifiers are among the tables,
// predicate by predicate.
fn each_in_set(query: &Query, preds: PredSet, tables: QuantSet, set: &ColSet) -> bool
    requires { WellFormedQuery query.now }
    ensures { result ≡ list_all (λ p. all_columns_in set.now (own_in tables p))
        (preds_in query.now preds) }
{
    preds_in(query, preds).all(|pred| has_all(set, &own_columns(tables, pred)))
}

/// Whether the input has the columns of these predicates whose quantifiers are among its tables.
#[tactic(auto, using(crate::proofs::OwnColumns::all_had))]
pub fn has_columns_of(query: &Query, preds: PredSet, input: &Props) -> bool
    requires { WellFormedQuery query.now }
    ensures { result ≡ has_columns_of query.now preds input.now }
{
    each_in_set(query, preds, input.tables, &input.cols)
}

fn lists_all(list: &ColList, columns: &ColList) -> bool
    ensures { result ≡ list_all (λ c. list_any (same_column c) list.now) columns.now }
{
    columns.as_slice().iter().all(|column| list.has(*column))
}

// The same of a list.
fn each_in_list(query: &Query, preds: PredSet, tables: QuantSet, list: &ColList) -> bool
    requires { WellFormedQuery query.now }
    ensures { result ≡ list_all (λ p. list_all (λ c. list_any (same_column c) list.now)
        (own_in tables p)) (preds_in query.now preds) }
{
    preds_in(query, preds).all(|pred| lists_all(list, &own_columns(tables, pred)))
}

// Whether the list has the columns of these predicates whose quantifiers are in the set.
fn own_columns_are_listed(query: &Query, preds: PredSet, tables: QuantSet, list: &ColList) -> bool
    requires { WellFormedQuery query.now }
    ensures { result ≡ list_all (λ c. list_any (same_column c) list.now)
        (own_columns query.now preds tables) }
{
    each_in_list(query, preds, tables, list)
}

/// Whether the set has one quantifier, the index at this position is on its table, and the
/// predicates' own columns are columns of the index.
pub fn index_serves(query: &Query, tables: QuantSet, index: u8, preds: PredSet) -> bool
    requires { WellFormedQuery query.now }
    ensures { result ≡ index_serves query.now tables index preds }
{
    is_single(tables)
        && is_index_on(query, tables, index)
        && own_columns_are_listed(query, preds, tables, &index_columns(query, tables, index))
}
