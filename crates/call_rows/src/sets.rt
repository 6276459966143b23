// The set of the query's goal, and what is made of it.
ghost use Rattle.std.specs.Prelude.{IfOk};
ghost use Rattle.star_model.specs.Expected.{query_goal};
ghost use Rattle.star_model.specs.WellFormed.{WellFormedQuery};
ghost use Rattle.exchange.specs.Places.{IsBestOf};

use crate::goals::own_goal;
use derivation_print::print_derivation;
use dominance_prune::{Offer, PlanSet};
use glue::glue;
use lolepop::Entry;
use star_check::CheckedRules;
use star_expand::expand_query;
use star_model::columns::ColList;
use star_model::plans::Require;
use star_model::query::Query;
use std::alloc::{AllocError, Global};

/// The costs of the members, `(COST, RESCAN)` of each, in ascending order.
pub fn costs_of(alloc: Global, plans: &PlanSet<Entry>) -> Result<Vec<(u64, u64)>, AllocError> {
    let mut costs = Vec::new(alloc);
    for entry in plans.iter() {
        let props = entry.props();
        costs.push((props.cost.get(), props.rescan.get()))?;
    }
    costs.sort_unstable();
    Ok(costs)
}

/// The set of the query's goal.
pub fn own_plans(
    alloc: Global,
    rules: &CheckedRules,
    query: &Query,
) -> Result<PlanSet<Entry>, AllocError>
    requires { WellFormedQuery query.now }
    ensures { IfOk result (IsBestOf query.now rules.now (query_goal query.now)) }
{
    let mut memo = expand_query(alloc, rules, query)?;
    match memo.remove(&own_goal(query)) {
        Some(plans) => Ok(plans),
        None => unreachable!(),
    }
}

/// The costs of the members, a line for each.
pub fn lines_of(alloc: Global, plans: &PlanSet<Entry>) -> Result<String, AllocError> {
    let mut lines = String::new(alloc);
    for (cost, rescan) in costs_of(alloc, plans)?.as_slice() {
        lines.push_str(format!(in alloc; "{cost} {rescan}\n")?.as_str())?;
    }
    Ok(lines)
}

/// The derivation of each member, as the tree for which its shared nodes stand.
pub fn told_unshared(
    alloc: Global,
    rules: &CheckedRules,
    query: &Query,
) -> Result<String, AllocError>
    requires { WellFormedQuery query.now }
{
    let mut told = String::new(alloc);
    for entry in own_plans(alloc, rules, query)?.iter() {
        let text = print_derivation(alloc, &entry.trace.unshare(alloc)?)?;
        told.push_str(String::from_utf8_lossy(alloc, text.as_slice())?.as_str())?;
    }
    Ok(told)
}

// What the query requires, stored or not.
fn required(query: &Query, temp: bool) -> Require {
    Require {
        order: query.order.copied(),
        site: query.site,
        temp,
        path: ColList::new(),
    }
}

// The costs of what Glue makes of the set for what the query requires, stored or not.
fn glued_lines(
    alloc: Global,
    rules: &CheckedRules,
    query: &Query,
    plans: &PlanSet<Entry>,
    temp: bool,
) -> Result<String, AllocError>
    requires query { WellFormedQuery query.now }
    requires plans { IsBestOf query.now rules.now (query_goal query.now) plans.now }
{
    let require = required(query, temp);
    let glued = glue(alloc, query, rules.costs(), plans, &require)?;
    lines_of(alloc, &glued)
}

/// The costs of what Glue makes of the set for what the query requires, and the same stored.
pub fn told_glue(alloc: Global, rules: &CheckedRules, query: &Query) -> Result<String, AllocError>
    requires { WellFormedQuery query.now }
{
    let plans = own_plans(alloc, rules, query)?;
    let mut told = glued_lines(alloc, rules, query, &plans, false)?;
    told.push_str("stored\n")?;
    told.push_str(glued_lines(alloc, rules, query, &plans, true)?.as_str())?;
    Ok(told)
}

// How many of the members are kept by a set that they are offered to.
fn kept_of(plans: &PlanSet<Entry>, others: &mut PlanSet<Entry>) -> Result<usize, AllocError> {
    let mut count = 0usize;
    for entry in plans.iter() {
        if others.offer(entry.clone()?)? == Offer::Kept {
            count = count.saturating_add(1);
        }
    }
    Ok(count)
}

/// How many of the set's members a new set keeps, how many of them once more, and the costs of what
/// it has then.
pub fn told_offers(alloc: Global, rules: &CheckedRules, query: &Query) -> Result<String, AllocError>
    requires { WellFormedQuery query.now }
{
    let plans = own_plans(alloc, rules, query)?;
    let mut others = PlanSet::new(alloc);
    let first = kept_of(&plans, &mut others)?;
    let again = kept_of(&plans, &mut others)?;
    let lines = lines_of(alloc, &others)?;
    format!(in alloc; "kept {first}, once more {again}\n{lines}")
}
