// The body to which a reference leads, and the bindings that it has there. None of it takes memory.

ghost use Rattle.std.specs.Prelude.{◌≡◌, ◌≤◌, length};
ghost use Rattle.std.specs.Option.{option_map, option_copied};
ghost use Rattle.star_model.specs.Limits.{most_parameters};
ghost use Rattle.star_model.specs.Expected.{Expression, Call, reference_body, body_of};
ghost use Rattle.star_model.specs.Stars.{alternative_of};
ghost use Rattle.star_model.specs.WellFormed.{WellFormedQuery};

use crate::answers::{Basis, Referred};
use crate::bindings::bind;
use star_check::CheckedRules;
use star_model::lists::Name;
use star_model::rules::{Alternative, PlanExpr};
use star_value::{Env, meets};

// The alternative of the STAR that has this number, from 1.
fn alternative<'a>(rules: &'a CheckedRules, star: &Name, number: u32) -> Option<&'a Alternative>
    ensures { option_copied result ≡ alternative_of rules.now star.now number }
{
    let found = rules.star(star)?;
    if number == 0 {
        None
    } else {
        found.alternatives.as_slice().get(number as usize - 1)
    }
}

// The body of the alternative under the values of the STAR's parameters and those of its for-all
// names, if it applies.
fn body_of<'a>(basis: &Basis<'a>, referred: &Referred<'_>, call: Env) -> Option<(&'a PlanExpr, Env)>
    requires query { WellFormedQuery basis.now.query.now }
    requires room { length call ≤ most_parameters }
    ensures { option_map (λ p. Expression p.0.now p.1) result
        ≡ body_of basis.now.query.now basis.now.rules.now referred.now.star.now call
        referred.now.alternative referred.now.values.now }
{
    let found = alternative(basis.rules, referred.star, referred.alternative)?;
    let numbers = referred.values.as_slice();
    let env = bind(basis.query, found.ranges.as_slice(), numbers, call)?;
    if meets(&found.condition, &env, basis.query) {
        Some((&found.body, env))
    } else {
        None
    }
}

// The same where the STAR of these letters is called; none where the node refers to another.
pub fn reference_body<'a>(
    basis: &Basis<'a>,
    referred: &Referred<'_>,
    letters: &[u8],
    call: Env,
) -> Option<(&'a PlanExpr, Env)>
    requires query { WellFormedQuery basis.now.query.now }
    requires room { length call ≤ most_parameters }
    ensures { option_map (λ p. Expression p.0.now p.1) result
        ≡ reference_body basis.now.query.now basis.now.rules.now referred.now.star.now
        referred.now.alternative referred.now.values.now (Call letters.now call) }
{
    if referred.star.as_slice() == letters {
        body_of(basis, referred, call)
    } else {
        None
    }
}
