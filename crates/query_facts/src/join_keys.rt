// The keys of joins.

ghost use Rattle.std.specs.Prelude.{◌≡◌, ◌<◌, ◌++◌, length};
ghost use Rattle.std.specs.Option.{option_to_list};
ghost use Rattle.std.specs.List.{find};
ghost use Rattle.star_model.specs.Limits.{most_in_order};
ghost use Rattle.star_model.specs.Sets.{has};
ghost use Rattle.star_model.specs.Predicates.{columns_of};
ghost use Rattle.star_model.specs.Meaning.{keys_of};
ghost use Rattle.star_model.specs.WellFormed.{WellFormedQuery};

use star_model::columns::{Col, ColList};
use star_model::query::{Operand, Pred, Query};
use star_model::sets::{PredSet, QuantSet};

fn key_of(tables: QuantSet, pred: &Pred) -> Option<Col>
    ensures { result ≡ find (λ c. has tables c.quant.0) (columns_of pred.now) }
{
    if tables.has(pred.left.quant.0) {
        return Some(pred.left);
    }
    match &pred.right {
        Operand::Column(column) => {
            if tables.has(column.quant.0) {
                Some(*column)
            } else {
                None
            }
        }
        Operand::Constant(_) => None,
    }
}

// Adds the key of the predicate, if it has one.
fn add_key(found: &mut ColList, tables: QuantSet, pred: &Pred)
    requires { length found.old < most_in_order }
    ensures { found.new ≡ found.old ++ option_to_list
        (find (λ c. has tables c.quant.0) (columns_of pred.now)) }
{
    if let Some(column) = key_of(tables, pred) {
        let pushed = found.try_push(column);
        prove!(pushed.is_ok());
    }
}

/// For each of these predicates, in query order, its first column whose quantifier is in the set.
#[tactic(auto, using(crate::proofs::KeyWalks::key_rules))]
pub fn keys(query: &Query, preds: PredSet, tables: QuantSet) -> ColList
    requires { WellFormedQuery query.now }
    ensures { result ≡ keys_of query.now preds tables }
{
    let mut found = ColList::new();
    for (n, pred) in query.preds.as_slice().iter().enumerate() {
        if preds.has(n as u8) {
            add_key(&mut found, tables, pred);
        }
    }
    found
}
