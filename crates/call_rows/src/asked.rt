// Whether a memo holds what the query's goal asks for.
ghost use Rattle.star_model.specs.Goals.{IsGoal};
ghost use Rattle.star_model.specs.WellFormed.{WellFormedQuery};

use crate::goals::{goal_text, goals_of, own_goal};
use dominance_prune::PlanSet;
use lolepop::Entry;
use star_check::CheckedRules;
use star_expand::{closed, expand_query};
use star_model::plans::Goal;
use star_model::query::Query;
use std::alloc::{AllocError, Global};
use table_set_memo::Memo;

// Puts a set that was taken out behind the others.
fn put_back(memo: &mut Memo, goal: Goal, taken: Option<PlanSet<Entry>>) -> Result<(), AllocError> {
    match taken {
        Some(plans) if memo.get(&goal).is_none() => memo.put(goal, plans),
        _ => Ok(()),
    }
}

// Whether the memo is closed for the query's goal while this one is taken out.
fn closed_without(
    rules: &CheckedRules,
    query: &Query,
    own: &Goal,
    goal: Goal,
    memo: &mut Memo,
) -> Result<bool, AllocError>
    requires query { WellFormedQuery query.now }
    requires goal { IsGoal query.now own.now.tables own.now.pushed }
{
    let taken = memo.remove(&goal);
    let is_closed = closed(rules, query, own, memo);
    put_back(memo, goal, taken)?;
    Ok(is_closed)
}

/// Whether the memo is closed for the query's goal while it is empty and when it is expanded, and
/// the goals without which it isn't.
pub fn told_closed(alloc: Global, rules: &CheckedRules, query: &Query) -> Result<String, AllocError>
    requires { WellFormedQuery query.now }
{
    rules.stands();
    let own = own_goal(query);
    let is_closed = closed(rules, query, &own, &Memo::new(alloc));
    let mut told = format!(in alloc; "empty {is_closed}\n")?;
    let mut memo = expand_query(alloc, rules, query)?;
    let is_closed = closed(rules, query, &own, &memo);
    told.push_str(format!(in alloc; "expanded {is_closed}\n")?.as_str())?;
    for goal in goals_of(alloc, &memo)? {
        if !closed_without(rules, query, &own, goal, &mut memo)? {
            let goal = goal_text(alloc, &goal)?;
            told.push_str(format!(in alloc; "not without {goal}\n")?.as_str())?;
        }
    }
    Ok(told)
}
