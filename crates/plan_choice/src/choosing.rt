// The plan of least cost.

ghost use Rattle.std.specs.Prelude.{◌≡◌, ◌≤◌, [], ◌⊎◌, IfOk, MatchOption};
ghost use Rattle.std.specs.Option.{option_copied};
ghost use Rattle.star_model.specs.Expected.{query_goal, root_requirement};
ghost use Rattle.star_model.specs.WellFormed.{WellFormedQuery};
ghost use Rattle.lolepop.specs.Derived.{vector_of};
ghost use Rattle.exchange.specs.Places.{IsBestOf};
ghost use Rattle.plan_choice.specs.Choice.{IsChosen, IsCheapest};

use dominance_prune::PlanSet;
use glue::glue;
use lolepop::{Best, Entry};
use star_check::CheckedRules;
use star_model::columns::ColList;
use star_model::plans::Require;
use star_model::query::Query;
use std::alloc::{AllocError, Global};

// What the query requires of the rows that it is answered with.
fn root_require(query: &Query) -> Require
    ensures { result ≡ root_requirement query.now }
{
    Require {
        order: query.order.copied(),
        site: query.site,
        temp: false,
        path: ColList::new(),
    }
}

// The cheaper of the two, the first where they cost the same.
fn cheaper<'a>(best: Option<&'a Entry>, entry: &'a Entry) -> &'a Entry
    ensures first { MatchOption (option_copied best.entry) (result.now ≡ entry.now)
        (λ b. (vector_of result.now).cost ≤ (vector_of b).cost) }
    ensures second { (vector_of result.now).cost ≤ (vector_of entry.now).cost }
    ensures one { MatchOption (option_copied best.entry) (result.now ≡ entry.now)
        (λ b. (result.now ≡ b) ⊎ (result.now ≡ entry.now)) }
{
    match best {
        Some(best) if best.node.props().cost <= entry.node.props().cost => best,
        _ => entry,
    }
}

// The first member of those that cost least.
fn cheapest(plans: &PlanSet<Entry>) -> Option<&Entry>
    ensures { MatchOption (option_copied result) (plans.now ≡ []) (IsCheapest plans.now) }
{
    let mut best: Option<&Entry> = None;
    for entry in plans.iter() {
        best = Some(cheaper(best, entry));
    }
    best
}

/// A plan of least cost of all that the query has, chosen from the set of its goal by Glue of what
/// it requires; none where it has no plan.
pub fn choose(
    alloc: Global,
    rules: &CheckedRules,
    query: &Query,
    plans: &PlanSet<Entry>,
) -> Result<Option<Best>, AllocError>
    requires query { WellFormedQuery query.now }
    requires plans { IsBestOf query.now rules.now (query_goal query.now) plans.now }
    ensures { IfOk result (IsChosen query.now rules.now) }
{
    rules.stands();
    let require = root_require(query);
    let glued = glue(alloc, query, rules.costs(), plans, &require)?;
    match cheapest(&glued) {
        Some(entry) => Ok(Some(Best::of_entry(alloc, entry)?)),
        None => Ok(None),
    }
}
