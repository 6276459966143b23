// Bindings of for-all names. None of it takes memory.

ghost use Rattle.std.specs.Prelude.{◌≡◌, ◌<◌, ◌≤◌, ◌+◌, ◌++◌, ◌∷◌, [], length};
ghost use Rattle.star_model.specs.Limits.{most_bindings};
ghost use Rattle.star_model.specs.Expected.{bound};
ghost use Rattle.star_model.specs.WellFormed.{WellFormedQuery};
ghost use Rattle.plan_check.specs.Bound.{member_numbered};

use star_model::query::Query;
use star_model::rules::{ForAll, Range};
use star_model::values::RuleValue;
use star_value::{Env, numbered};

// The member of the range that has this number, from 1.
fn member(query: &Query, range: &Range, env: &Env, number: u32) -> Option<RuleValue>
    requires { WellFormedQuery query.now }
    ensures { result ≡ member_numbered query.now env.now range.now number }
{
    for (place, member) in numbered(range, env, query) {
        if u32::from(place) + 1 == number {
            return Some(member);
        }
    }
    None
}

// The bindings with one more.
fn with_value(env: Env, value: RuleValue) -> Env
    requires { length env < most_bindings }
    ensures { result ≡ env ++ value ∷ [] }
{
    let mut more = env;
    let pushed = more.try_push(value);
    prove!(pushed.is_ok());
    more
}

// The bindings with a value for each of these names; none where the numbers are more or fewer, or
// one is no member's.
pub fn bind(query: &Query, ranges: &[ForAll], numbers: &[u32], env: Env) -> Option<Env>
    requires query { WellFormedQuery query.now }
    requires room { length env + length numbers.now ≤ most_bindings }
    ensures { result ≡ bound query.now ranges.now numbers.now env }
{
    match ranges {
        [] => { if numbers.is_empty() { Some(env) } else { None } }
        [each, ranges @ ..] => match numbers {
            [] => None,
            [number, numbers @ ..] => {
                let value = member(query, &each.range, &env, *number)?;
                bind(query, ranges, numbers, with_value(env, value))
            }
        },
    }
}
