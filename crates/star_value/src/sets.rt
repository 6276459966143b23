// Operations on two sets of one kind, and the set of all quantifiers.

ghost use Rattle.std.specs.Prelude.{◌≡◌};
ghost use Rattle.star_model.specs.Sets.{union, minus, meet};
ghost use Rattle.star_model.specs.Meaning.{on_sets};
ghost use Rattle.star_model.specs.Predicates.{all_quants};
ghost use Rattle.star_model.specs.WellFormed.{WellFormedQuery};

use crate::readings::{preds_of, quants_of};
use star_model::query::Query;
use star_model::sets::QuantSet;
use star_model::values::RuleValue;

pub fn union_of(v: &RuleValue, w: &RuleValue) -> RuleValue
    ensures { result ≡ on_sets union v.now w.now }
{
    match v {
        RuleValue::Preds(preds) => RuleValue::Preds(preds.union(preds_of(w))),
        _ => RuleValue::Quants(quants_of(v).union(quants_of(w))),
    }
}

pub fn minus_of(v: &RuleValue, w: &RuleValue) -> RuleValue
    ensures { result ≡ on_sets minus v.now w.now }
{
    match v {
        RuleValue::Preds(preds) => RuleValue::Preds(preds.minus(preds_of(w))),
        _ => RuleValue::Quants(quants_of(v).minus(quants_of(w))),
    }
}

pub fn meet_of(v: &RuleValue, w: &RuleValue) -> RuleValue
    ensures { result ≡ on_sets meet v.now w.now }
{
    match v {
        RuleValue::Preds(preds) => RuleValue::Preds(preds.meet(preds_of(w))),
        _ => RuleValue::Quants(quants_of(v).meet(quants_of(w))),
    }
}

/// The set of all quantifiers of the query.
#[tactic(auto, using(crate::proofs::Members::all_rules))]
pub fn all_quants(query: &Query) -> QuantSet
    requires { WellFormedQuery query.now }
    ensures { result ≡ all_quants query.now }
{
    let mut found = QuantSet::empty();
    for n in 0..query.quants.len() {
        found = found.union(QuantSet::single(n as u8));
    }
    found
}
