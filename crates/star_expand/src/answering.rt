// What a query is answered from: its best plan, and its frontier.

ghost use Rattle.std.specs.Prelude.{◌≡◌, IfOk};
ghost use Rattle.star_model.specs.Expected.{query_goal};
ghost use Rattle.star_model.specs.Predicates.{all_quants};
ghost use Rattle.star_model.specs.WellFormed.{WellFormedQuery};
ghost use Rattle.exchange.specs.Places.{IsBestOf};
ghost use Rattle.plan_choice.specs.Choice.{IsChosen};
ghost use Rattle.plan_choice.specs.FrontierLists.{IsFrontierList};
ghost use Rattle.search_places.specs.Memos.{HoldsFrontiers};
ghost use Rattle.star_expand.specs.Expanding.{HoldsQueryGoals};

use crate::expanding::expand;
use dominance_prune::PlanSet;
use lolepop::{Best, Entry};
use plan_choice::{choose, listed_frontier};
use star_check::CheckedRules;
use star_model::lists::List;
use star_model::plans::{Goal, Props};
use star_model::query::Query;
use star_model::sets::PredSet;
use star_value::all_quants;
use std::alloc::{AllocError, Global};
use table_set_memo::Memo;

// The goal of the query: all its quantifiers, and no predicates on others.
fn goal_of_query(query: &Query) -> Goal
    requires { WellFormedQuery query.now }
    ensures { result ≡ record { tables = all_quants query.now; pushed = 0 } }
{
    Goal {
        tables: all_quants(query),
        pushed: PredSet::empty(),
    }
}

/// The sets of all goals that the query asks for, its own goal among them.
pub fn expand_query(alloc: Global, rules: &CheckedRules, query: &Query) -> Result<Memo, AllocError>
    requires { WellFormedQuery query.now }
    ensures frontiers { IfOk result (HoldsFrontiers query.now rules.now) }
    ensures goals { IfOk result (HoldsQueryGoals query.now rules.now) }
{
    rules.stands();
    let mut memo = Memo::new(alloc);
    expand(alloc, rules, query, goal_of_query(query), &mut memo)?;
    Ok(memo)
}

// The best plans of the query's goal.
fn plans_of_query(
    alloc: Global,
    rules: &CheckedRules,
    query: &Query,
) -> Result<PlanSet<Entry>, AllocError>
    requires { WellFormedQuery query.now }
    ensures { IfOk result (IsBestOf query.now rules.now (query_goal query.now)) }
{
    let mut memo = expand_query(alloc, rules, query)?;
    match memo.remove(&goal_of_query(query)) {
        Some(plans) => Ok(plans),
        None => unreachable!(),
    }
}

/// A plan of least cost of the query under the rules, with a derivation of it; none where the query
/// has no plan.
pub fn best(alloc: Global, rules: &CheckedRules, query: &Query) -> Result<Option<Best>, AllocError>
    requires { WellFormedQuery query.now }
    ensures { IfOk result (IsChosen query.now rules.now) }
{
    let plans = plans_of_query(alloc, rules, query)?;
    choose(alloc, rules, query, &plans)
}

/// The vectors on the frontier of the query's goal, each once, in the order of their lines; none
/// where the query has no plan.
pub fn frontier(
    alloc: Global,
    rules: &CheckedRules,
    query: &Query,
) -> Result<List<Props>, AllocError>
    requires { WellFormedQuery query.now }
    ensures { IfOk result (IsFrontierList query.now rules.now) }
{
    let plans = plans_of_query(alloc, rules, query)?;
    listed_frontier(alloc, &plans)
}
