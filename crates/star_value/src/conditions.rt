// Conditions of applicability.

ghost use Rattle.std.specs.Prelude.{◌≡◌};
ghost use Rattle.star_model.specs.Meaning.{holds, is_empty_value, is_part, same_value};
ghost use Rattle.star_model.specs.WellFormed.{WellFormedQuery};

use crate::env::Env;
use crate::meaning::value;
use crate::readings::{cols_of, preds_of, quants_of};
use star_model::query::Query;
use star_model::rules::Condition;
use star_model::values::RuleValue;

fn is_empty(value: &RuleValue) -> bool
    ensures { result ≡ is_empty_value value.now }
{
    match value {
        RuleValue::Cols(cols) => cols.len() == 0,
        RuleValue::Preds(preds) => preds.len() == 0,
        _ => quants_of(value).len() == 0,
    }
}

// Whether it is a subset, of two sets of one kind.
fn is_part(part: &RuleValue, whole: &RuleValue) -> bool
    ensures { result ≡ is_part part.now whole.now }
{
    match part {
        RuleValue::Preds(preds) => preds.within(preds_of(whole)),
        _ => quants_of(part).within(quants_of(whole)),
    }
}

// Whether they are equal values of one kind other than stream.
fn is_same(left: &RuleValue, right: &RuleValue) -> bool
    ensures { result ≡ same_value left.now right.now }
{
    match (left, right) {
        (RuleValue::Quants(s), RuleValue::Quants(t)) => s == t,
        (RuleValue::Preds(s), RuleValue::Preds(t)) => s == t,
        (RuleValue::Cols(c), RuleValue::Cols(d)) => { d.begins_with(c) && c.begins_with(d) }
        (RuleValue::Site(s), RuleValue::Site(t)) => s.0 == t.0,
        (RuleValue::Index(n), RuleValue::Index(m)) => n == m,
        _ => false,
    }
}

/// Whether the condition holds under these bindings. It takes no memory.
///
/// The recursion goes as deep as the condition and its expressions nest.
#[tactic(auto, using(star_model::specs::MeaningEquations::holds_cases))]
pub fn holds(condition: &Condition, env: &Env, query: &Query) -> bool
    requires { WellFormedQuery query.now }
    ensures { result ≡ holds query.now env.now condition.now }
{
    match condition {
        Condition::Empty(v) => is_empty(&value(v, env, query)),
        Condition::Single(v) => quants_of(&value(v, env, query)).len() == 1,
        Condition::Same(v, w) => is_same(&value(v, env, query), &value(w, env, query)),
        Condition::Within(v, w) => is_part(&value(v, env, query), &value(w, env, query)),
        Condition::Begins(columns, prefix) => {
            let prefix = cols_of(value(prefix, env, query));
            cols_of(value(columns, env, query)).begins_with(&prefix)
        }
        Condition::Not(c) => !holds(c.get(), env, query),
        Condition::And(c, d) => holds(c.get(), env, query) && holds(d.get(), env, query),
        Condition::Or(c, d) => holds(c.get(), env, query) || holds(d.get(), env, query),
    }
}
