// The first goal that a place asks for and the memo doesn't hold. The walk goes over the same
// places as a search for plans, and each function's recursion goes down in the same way: references
// lead to lower STARs, and the inputs of a body nest less deep.

ghost use Rattle.std.specs.Prelude.{[], ◌∷◌};
ghost use Rattle.star_model.specs.Expected.{Call, Expression};
ghost use Rattle.exchange.specs.Asking.{AsksFrom};
ghost use Rattle.search_places.specs.Memos.{FirstMissing};
ghost use Rattle.search_places.specs.Searching.{IsPosed, LeadsTo};
ghost use Rattle.asked_goals.specs.Alternatives.{AsksOver, IsInside};

use crate::glues::missing_at_glue;
use search_places::{Search, with_value};
use star_model::lists::Name;
use star_model::plans::Goal;
use star_model::rules::{Alternative, ForAll, PlanExpr};
use star_value::{Env, meets, range, values};

/// The first goal that the expression asks for under these bindings, and that isn't held.
#[cycle(asking)]
pub fn missing_in(search: &Search<'_>, expr: &PlanExpr, env: &Env) -> Option<Goal>
    requires posed { IsPosed search.now }
    requires leads { LeadsTo search.now (Expression expr.now env.now) }
    ensures { FirstMissing search.now.memo.now
        (AsksFrom search.now.query.now search.now.rules.now (Expression expr.now env.now)) result }
{
    search.rules.stands();
    match expr {
        PlanExpr::Leaf {
            flavour: _,
            args: _,
        } => None,
        PlanExpr::Unary {
            flavour: _,
            args: _,
            input,
        } => missing_in(search, input.get(), env),
        PlanExpr::Binary {
            flavour: _,
            args: _,
            left,
            right,
        } => match missing_in(search, left.get(), env) {
            Some(goal) => Some(goal),
            None => missing_in(search, right.get(), env),
        },
        PlanExpr::Glue { stream, preds } => missing_at_glue(search, stream, preds, env),
        PlanExpr::Reference { star, args } => {
            let values = values(args.as_slice(), env, search.query);
            missing_in_call(search, star, &values)
        }
    }
}

/// The first goal that the STAR asks for under these values of its parameters, and that isn't held.
#[cycle(asking)]
pub fn missing_in_call(search: &Search<'_>, star: &Name, env: &Env) -> Option<Goal>
    requires posed { IsPosed search.now }
    requires leads { LeadsTo search.now (Call star.now env.now) }
    ensures { FirstMissing search.now.memo.now
        (AsksFrom search.now.query.now search.now.rules.now (Call star.now env.now)) result }
{
    search.rules.stands();
    let found = search.rules.star(star)?;
    for alternative in found.alternatives.as_slice() {
        let missing = missing_in_ranges(
            search,
            star,
            alternative,
            alternative.ranges.as_slice(),
            env,
        );
        if let Some(goal) = missing {
            return Some(goal);
        }
    }
    None
}

// The same of an alternative of which these for-all names are still to be bound.
#[cycle(asking)]
fn missing_in_ranges(
    search: &Search<'_>,
    star: &Name,
    alternative: &Alternative,
    ranges: &[ForAll],
    env: &Env,
) -> Option<Goal>
    requires posed { IsPosed search.now }
    requires inside { IsInside search.now star.now alternative.now ranges.now env.now }
    ensures { FirstMissing search.now.memo.now
        (AsksOver search.now.query.now search.now.rules.now alternative.now ranges.now env.now)
        result }
{
    match ranges {
        [] => missing_in_body(search, star, alternative, env),
        [first, more @ ..] => missing_in_members(search, star, alternative, first, more, env),
    }
}

// The same where the first of these names is bound to each member of its range in turn.
#[cycle(asking)]
fn missing_in_members(
    search: &Search<'_>,
    star: &Name,
    alternative: &Alternative,
    first: &ForAll,
    more: &[ForAll],
    env: &Env,
) -> Option<Goal>
    requires posed { IsPosed search.now }
    requires inside { IsInside search.now star.now alternative.now (first.now ∷ more.now) env.now }
    ensures { FirstMissing search.now.memo.now
        (AsksOver search.now.query.now search.now.rules.now alternative.now (first.now ∷ more.now)
        env.now) result }
{
    for member in range(&first.range, env, search.query) {
        let next = with_value(env, member);
        if let Some(goal) = missing_in_ranges(search, star, alternative, more, &next) {
            return Some(goal);
        }
    }
    None
}

// The same where all are bound.
#[cycle(asking)]
fn missing_in_body(
    search: &Search<'_>,
    star: &Name,
    alternative: &Alternative,
    env: &Env,
) -> Option<Goal>
    requires posed { IsPosed search.now }
    requires inside { IsInside search.now star.now alternative.now [] env.now }
    ensures { FirstMissing search.now.memo.now
        (AsksOver search.now.query.now search.now.rules.now alternative.now [] env.now) result }
{
    search.rules.stands();
    if meets(&alternative.condition, env, search.query) {
        missing_in(search, &alternative.body, env)
    } else {
        None
    }
}
