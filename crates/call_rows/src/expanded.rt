// Memos that were expanded, in one go or in several.
ghost use Rattle.star_model.specs.Goals.{IsGoal};
ghost use Rattle.star_model.specs.WellFormed.{WellFormedQuery};
ghost use Rattle.search_places.specs.Memos.{HoldsFrontiers, IsClosed};
ghost use Rattle.star_expand.specs.Expanding.{HoldsQueryGoals};

use crate::goals::{goal_text, goals_of, own_goal};
use crate::sets::costs_of;
use star_check::CheckedRules;
use star_expand::{expand, expand_query};
use star_model::plans::Goal;
use star_model::query::Query;
use std::alloc::{AllocError, Global};
use table_set_memo::Memo;

// How many plans are kept in the memo.
fn kept(memo: &Memo) -> usize {
    let mut count = 0usize;
    for place in 0..memo.len() {
        let plans = memo.get(memo.goal_at(place));
        count = count.saturating_add(plans.map_or(0, |plans| plans.len()));
    }
    count
}

/// How many goals the query asks for, and how many plans are kept of them.
pub fn told_goals(alloc: Global, rules: &CheckedRules, query: &Query) -> Result<String, AllocError>
    requires { WellFormedQuery query.now }
{
    let memo = expand_query(alloc, rules, query)?;
    let kept = kept(&memo);
    format!(in alloc; "goals {} kept {kept}\n", memo.len())
}

// Whether both hold the goal, and sets of it with the same costs.
fn agree(alloc: Global, goal: &Goal, one: &Memo, other: &Memo) -> Result<bool, AllocError> {
    match (one.get(goal), other.get(goal)) {
        (Some(plans), Some(others)) => {
            Ok(costs_of(alloc, plans)?.as_slice() == costs_of(alloc, others)?.as_slice())
        }
        _ => Ok(false),
    }
}

// Whether both hold the same goals with the same sets.
fn is_same(alloc: Global, one: &Memo, other: &Memo) -> Result<bool, AllocError> {
    for place in 0..one.len() {
        if !agree(alloc, one.goal_at(place), one, other)? {
            return Ok(false);
        }
    }
    Ok(one.len() == other.len())
}

// Expands the goal, and once more where memory was wanting.
fn expand_twice(
    alloc: Global,
    rules: &CheckedRules,
    query: &Query,
    goal: &Goal,
    memo: &mut Memo,
) -> Result<(), AllocError>
    requires query { WellFormedQuery query.now }
    requires goal { IsGoal query.now goal.now.tables goal.now.pushed }
    requires frontiers { HoldsFrontiers query.now rules.now memo.old }
    requires closed { IsClosed query.now rules.now memo.old }
    ensures frontiers { HoldsFrontiers query.now rules.now memo.new }
    ensures closed { IsClosed query.now rules.now memo.new }
{
    if expand(alloc, rules, query, *goal, memo).is_ok() {
        return Ok(());
    }
    expand(alloc, rules, query, *goal, memo)
}

// A memo in which this goal of an expanded one was expanded first, and then the query's.
fn begun_with(
    alloc: Global,
    rules: &CheckedRules,
    query: &Query,
    expanded: &Memo,
    first: Goal,
) -> Result<Memo, AllocError>
    requires query { WellFormedQuery query.now }
    requires goals { HoldsQueryGoals query.now rules.now expanded.now }
{
    rules.stands();
    let mut memo = Memo::new(alloc);
    if expanded.get(&first).is_none() {
        // It is no goal that the query asks for.
        return Ok(memo);
    }
    expand_twice(alloc, rules, query, &first, &mut memo)?;
    expand_twice(alloc, rules, query, &own_goal(query), &mut memo)?;
    Ok(memo)
}

/// Whether an expansion that begins with another goal comes to the same memo, for each goal.
pub fn told_again(alloc: Global, rules: &CheckedRules, query: &Query) -> Result<String, AllocError>
    requires { WellFormedQuery query.now }
{
    let expanded = expand_query(alloc, rules, query)?;
    let mut told = String::new(alloc);
    for goal in goals_of(alloc, &expanded)? {
        let memo = begun_with(alloc, rules, query, &expanded, goal)?;
        let goal = goal_text(alloc, &goal)?;
        let agreed = if is_same(alloc, &expanded, &memo)? {
            "the same"
        } else {
            "another"
        };
        told.push_str(format!(in alloc; "{goal} first: {agreed}\n")?.as_str())?;
    }
    Ok(told)
}

/// The goals with their sets, moved one by one to another memo.
pub fn told_moved(alloc: Global, rules: &CheckedRules, query: &Query) -> Result<String, AllocError>
    requires { WellFormedQuery query.now }
{
    let mut told = String::new(alloc);
    let mut moved = Memo::new(alloc);
    let mut memo = expand_query(alloc, rules, query)?;
    for goal in goals_of(alloc, &memo)? {
        told.push_str(moved_set(alloc, goal, &mut memo, &mut moved)?.as_str())?;
    }
    let is_same = is_same(alloc, &moved, &expand_query(alloc, rules, query)?)?;
    told.push_str(format!(in alloc; "left {}, same {is_same}\n", memo.len())?.as_str())?;
    Ok(told)
}

// Moves the goal with its set, and tells of it.
fn moved_set(
    alloc: Global,
    goal: Goal,
    memo: &mut Memo,
    moved: &mut Memo,
) -> Result<String, AllocError> {
    let Some(plans) = memo.remove(&goal) else {
        return String::from_str(alloc, "no set\n");
    };
    if moved.get(&goal).is_some() {
        return String::from_str(alloc, "held already\n");
    }
    let count = plans.len();
    moved.put(goal, plans)?;
    let goal = goal_text(alloc, &goal)?;
    format!(in alloc; "{goal}: {count}, at place {}\n", moved.len())
}
