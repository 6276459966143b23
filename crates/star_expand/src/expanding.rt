// The sets of a goal and of all goals that it asks for.

ghost use Rattle.std.specs.Prelude.{◌≡◌, true, Some, None, IfOk, OnOk};
ghost use Rattle.star_model.specs.Expected.{ForGoal, may_split, root_call};
ghost use Rattle.star_model.specs.Goals.{IsGoal};
ghost use Rattle.star_model.specs.WellFormed.{WellFormedQuery};
ghost use Rattle.table_set_memo.specs.Memos.{IsHeld};
ghost use Rattle.exchange.specs.Asking.{AsksFrom};
ghost use Rattle.exchange.specs.Places.{IsBestOf};
ghost use Rattle.search_places.specs.Memos.{HoldsFrontiers, HoldsAsked, IsClosed, FirstMissing};
ghost use Rattle.search_places.specs.Shared.{HoldsShared};
ghost use Rattle.star_expand.specs.Expanding.{Grows};

use asked_goals::missing_in_split;
use dominance_prune::PlanSet;
use lolepop::Entry;
use search_places::Search;
use shared_sets::Tables;
use star_check::CheckedRules;
use star_model::plans::Goal;
use star_model::query::Query;
use star_model::sets::QuantSet;
use star_search::goal_plans;
use std::alloc::{AllocError, Global};
use table_set_memo::Memo;

/// Adds the goal's set to the memo, and those of all goals that it asks for, as far as the memo
/// doesn't hold them. Where memory is wanting, the sets that were added are right, and a second
/// call goes on from there.
pub fn expand<'a>(
    alloc: Global,
    rules: &'a CheckedRules,
    query: &'a Query,
    goal: Goal,
    memo: &mut Memo,
) -> Result<(), AllocError>
    requires query { WellFormedQuery query.now }
    requires goal { IsGoal query.now goal.tables goal.pushed }
    requires frontiers { HoldsFrontiers query.now rules.now memo.old }
    requires closed { IsClosed query.now rules.now memo.old }
    // These three on every answer.
    ensures frontiers { HoldsFrontiers query.now rules.now memo.new }
    ensures closed { IsClosed query.now rules.now memo.new }
    ensures grows { Grows query.now rules.now goal memo.old memo.new }
    ensures held { OnOk result (IsHeld memo.new goal) }
{
    expand_goal(alloc, rules, query, goal, memo, &mut Tables::new(alloc))
}

// The same with what was made before for these rules and this query.
#[cycle(expand)]
fn expand_goal<'a>(
    alloc: Global,
    rules: &'a CheckedRules,
    query: &'a Query,
    goal: Goal,
    memo: &mut Memo,
    tables: &mut Tables,
) -> Result<(), AllocError>
    requires query { WellFormedQuery query.now }
    requires goal { IsGoal query.now goal.tables goal.pushed }
    requires frontiers { HoldsFrontiers query.now rules.now memo.old }
    requires closed { IsClosed query.now rules.now memo.old }
    requires shared { HoldsShared query.now rules.now tables.old }
    ensures frontiers { HoldsFrontiers query.now rules.now memo.new }
    ensures closed { IsClosed query.now rules.now memo.new }
    ensures grows { Grows query.now rules.now goal memo.old memo.new }
    ensures shared { HoldsShared query.now rules.now tables.new }
    ensures held { OnOk result (IsHeld memo.new goal) }
{
    if memo.get(&goal).is_some() {
        return Ok(());
    }
    fill(alloc, rules, query, &goal, memo, tables)?;
    // No goal asks for itself, not even through others; but `fill` doesn't say so.
    if memo.get(&goal).is_some() {
        return Ok(());
    }
    let plans = plans_for(alloc, rules, query, &goal, memo, tables)?;
    memo.put(goal, plans)
}

// The goal's plans over a memo that has what it asks for.
fn plans_for<'a>(
    alloc: Global,
    rules: &'a CheckedRules,
    query: &'a Query,
    goal: &Goal,
    memo: &'a Memo,
    tables: &mut Tables,
) -> Result<PlanSet<Entry>, AllocError>
    requires query { WellFormedQuery query.now }
    requires goal { IsGoal query.now goal.now.tables goal.now.pushed }
    requires frontiers { HoldsFrontiers query.now rules.now memo.now }
    requires asked { HoldsAsked query.now rules.now memo.now goal.now }
    requires shared { HoldsShared query.now rules.now tables.old }
    ensures best { IfOk result (IsBestOf query.now rules.now
        (ForGoal goal.now.tables goal.now.pushed)) }
    ensures shared { HoldsShared query.now rules.now tables.new }
{
    let search = Search {
        rules,
        query,
        memo,
        goal: *goal,
    };
    goal_plans(alloc, &search, tables)
}

// Adds the sets of all goals that the goal asks for, but not its own.
#[cycle(expand)]
fn fill<'a>(
    alloc: Global,
    rules: &'a CheckedRules,
    query: &'a Query,
    goal: &Goal,
    memo: &mut Memo,
    tables: &mut Tables,
) -> Result<(), AllocError>
    requires query { WellFormedQuery query.now }
    requires goal { IsGoal query.now goal.now.tables goal.now.pushed }
    requires frontiers { HoldsFrontiers query.now rules.now memo.old }
    requires closed { IsClosed query.now rules.now memo.old }
    requires shared { HoldsShared query.now rules.now tables.old }
    ensures frontiers { HoldsFrontiers query.now rules.now memo.new }
    ensures closed { IsClosed query.now rules.now memo.new }
    ensures grows { Grows query.now rules.now goal.now memo.old memo.new }
    ensures shared { HoldsShared query.now rules.now tables.new }
    ensures asked { OnOk result (HoldsAsked query.now rules.now memo.new goal.now) }
{
    rules.stands();
    if goal.tables.len() == 1 {
        // It leads to no Glue.
        return Ok(());
    }
    for split in goal.tables.splits() {
        fill_split(alloc, rules, query, goal, split, memo, tables)?;
    }
    Ok(())
}

// The same of one split. Each turn the memo has more goals, and the next that is missing is looked
// for in the split from its start.
#[cycle(expand)]
fn fill_split<'a>(
    alloc: Global,
    rules: &'a CheckedRules,
    query: &'a Query,
    goal: &Goal,
    split: (QuantSet, QuantSet),
    memo: &mut Memo,
    tables: &mut Tables,
) -> Result<(), AllocError>
    requires query { WellFormedQuery query.now }
    requires goal { IsGoal query.now goal.now.tables goal.now.pushed }
    requires split { may_split goal.now.tables (Some split) ≡ true }
    requires frontiers { HoldsFrontiers query.now rules.now memo.old }
    requires closed { IsClosed query.now rules.now memo.old }
    requires shared { HoldsShared query.now rules.now tables.old }
    ensures frontiers { HoldsFrontiers query.now rules.now memo.new }
    ensures closed { IsClosed query.now rules.now memo.new }
    ensures grows { Grows query.now rules.now goal.now memo.old memo.new }
    ensures shared { HoldsShared query.now rules.now tables.new }
    ensures asked { OnOk result (FirstMissing memo.new
        (AsksFrom query.now rules.now (root_call goal.now.tables goal.now.pushed (Some split)))
        None) }
{
    rules.stands();
    let (left, right) = split;
    while let Some(next) = missing_in_split(rules, query, goal, (left, right), memo) {
        let held = memo.len();
        expand_goal(alloc, rules, query, next, memo, tables)?;
        let more = memo.len();
        prove!(held < more);
    }
    Ok(())
}
