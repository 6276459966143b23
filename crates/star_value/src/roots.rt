// The values of the parameters of a root STAR. None of it takes memory.

ghost use Rattle.std.specs.Prelude.{◌≡◌, ◌∷◌, []};
ghost use Rattle.star_model.specs.Meaning.{plain};
ghost use Rattle.star_value.specs.Roots.{root_values};

use crate::env::Env;
use star_model::columns::ColList;
use star_model::plans::{Goal, Require};
use star_model::sets::QuantSet;
use star_model::values::{RuleValue, StreamValue};

/// The values of the root STAR's parameters: a stream of each part of the split, or of all the
/// goal's quantifiers, that requires nothing, and the pushed predicates.
pub fn root_values(goal: Goal, split: Option<(QuantSet, QuantSet)>) -> Env
    ensures { result ≡ root_values goal.tables goal.pushed split }
{
    let pushed = RuleValue::Preds(goal.pushed);
    match split {
        None => of_one(plain(goal.tables), pushed),
        Some((left, right)) => of_several(plain(left), plain(right), pushed),
    }
}

fn of_one(stream: RuleValue, pushed: RuleValue) -> Env
    ensures { result ≡ stream ∷ pushed ∷ [] }
{
    let mut values = Env::new();
    let first = values.try_push(stream);
    let second = values.try_push(pushed);
    prove!(first.is_ok() && second.is_ok());
    values
}

fn of_several(left: RuleValue, right: RuleValue, pushed: RuleValue) -> Env
    ensures { result ≡ left ∷ right ∷ pushed ∷ [] }
{
    let mut values = of_one(left, right);
    let third = values.try_push(pushed);
    prove!(third.is_ok());
    values
}

// A stream that requires nothing.
fn plain(tables: QuantSet) -> RuleValue
    ensures { result ≡ plain tables }
{
    RuleValue::Stream(StreamValue {
        tables,
        require: Require {
            order: ColList::new(),
            site: None,
            temp: false,
            path: ColList::new(),
        },
    })
}
