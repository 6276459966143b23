// The predicates and the columns of a query that belong to a set of its quantifiers.

ghost use Rattle.std.specs.Prelude.{◌≡◌, true, not, ◌&&◌, fold};
ghost use Rattle.std.specs.List.{list_all, flat_map};
ghost use Rattle.star_model.specs.Meaning.{is_equality};
ghost use Rattle.star_model.specs.Predicates.{columns_of, lies_in, touches, eligible, crossing, used};
ghost use Rattle.star_model.specs.WellFormed.{WellFormedQuery};
ghost use Rattle.query_facts.specs.UsedColumns.{has_place, adding};

use star_model::columns::{Col, ColSet};
use star_model::query::{Cmp, Operand, Pred, Query};
use star_model::sets::{PredSet, QuantSet};

/// The predicates all of whose quantifiers are in the set.
#[tactic(auto, using(crate::proofs::GatheringLaws::gathering), unfolding(star_model::specs::Predicates::eligible))]
pub fn eligible(query: &Query, tables: QuantSet) -> PredSet
    requires { WellFormedQuery query.now }
    ensures { result ≡ eligible query.now tables }
{
    let mut found = PredSet::empty();
    for (n, pred) in query.preds.as_slice().iter().enumerate() {
        if lies_in(tables, pred) {
            found = found.union(PredSet::single(n as u8));
        }
    }
    found
}

/// The predicates that touch the set, and also a quantifier outside it.
#[tactic(auto, using(crate::proofs::GatheringLaws::gathering), unfolding(star_model::specs::Predicates::crossing))]
pub fn crossing(query: &Query, tables: QuantSet) -> PredSet
    requires { WellFormedQuery query.now }
    ensures { result ≡ crossing query.now tables }
{
    let mut found = PredSet::empty();
    for (n, pred) in query.preds.as_slice().iter().enumerate() {
        if crosses(tables, pred) {
            found = found.union(PredSet::single(n as u8));
        }
    }
    found
}

/// The columns of the set's quantifiers that the query selects, sorts by or compares.
#[tactic(auto, using(crate::proofs::UsedLaws::used_rules))]
pub fn used(query: &Query, tables: QuantSet) -> ColSet
    requires { WellFormedQuery query.now }
    ensures { result ≡ used query.now tables }
{
    let mut found = ColSet::empty();
    add_columns(&mut found, query.select.as_slice(), tables);
    add_columns(&mut found, query.order.as_slice(), tables);
    add_sides(&mut found, query.preds.as_slice(), tables);
    found
}

/// Whether all of the predicate's quantifiers are in the set.
pub fn lies_in(tables: QuantSet, pred: &Pred) -> bool
    ensures { result ≡ lies_in tables pred.now }
{
    match &pred.right {
        Operand::Column(right) => tables.has(pred.left.quant.0) && tables.has(right.quant.0),
        Operand::Constant(_) => tables.has(pred.left.quant.0),
    }
}

// Whether it touches the set, and also a quantifier outside it.
fn crosses(tables: QuantSet, pred: &Pred) -> bool
    ensures { result ≡ (touches tables pred.now && not (lies_in tables pred.now)) }
{
    touches(tables, pred) && !lies_in(tables, pred)
}

/// Whether one of the predicate's quantifiers is in the set.
pub fn touches(tables: QuantSet, pred: &Pred) -> bool
    ensures { result ≡ touches tables pred.now }
{
    match &pred.right {
        Operand::Column(right) => tables.has(pred.left.quant.0) || tables.has(right.quant.0),
        Operand::Constant(_) => tables.has(pred.left.quant.0),
    }
}

/// Whether it is an equality of columns of two different quantifiers.
pub fn is_equality(pred: &Pred) -> bool
    ensures { result ≡ is_equality pred.now }
{
    match &pred.right {
        Operand::Column(right) => pred.cmp == Cmp::Eq && pred.left.quant.0 != right.quant.0,
        Operand::Constant(_) => false,
    }
}

fn add_column(found: &mut ColSet, column: Col, tables: QuantSet)
    requires { has_place column ≡ true }
    ensures { found.new ≡ adding tables found.old column }
{
    if tables.has(column.quant.0) {
        found.insert(column);
    }
}

fn add_columns(found: &mut ColSet, columns: &[Col], tables: QuantSet)
    requires { list_all has_place columns.now ≡ true }
    ensures { found.new ≡ fold (adding tables) found.old columns.now }
{
    for column in columns {
        add_column(found, *column, tables);
    }
}

fn add_columns_of(found: &mut ColSet, pred: &Pred, tables: QuantSet)
    requires { list_all has_place (columns_of pred.now) ≡ true }
    ensures { found.new ≡ fold (adding tables) found.old (columns_of pred.now) }
{
    add_column(found, pred.left, tables);
    if let Operand::Column(right) = &pred.right {
        add_column(found, *right, tables);
    }
}

fn add_sides(found: &mut ColSet, preds: &[Pred], tables: QuantSet)
    requires { list_all (λ p. list_all has_place (columns_of p)) preds.now ≡ true }
    ensures { found.new ≡ fold (adding tables) found.old (flat_map columns_of preds.now) }
{
    for pred in preds {
        add_columns_of(found, pred, tables);
    }
}
