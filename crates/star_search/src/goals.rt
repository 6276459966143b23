// The plans of a goal.

ghost use Rattle.std.specs.Prelude.{◌≡◌, true, false, nat_eq, Some, IfOk, OnOk};
ghost use Rattle.star_model.specs.Sets.{size, splits};
ghost use Rattle.star_model.specs.Expected.{ForGoal, may_split};
ghost use Rattle.dominance_prune.specs.Gathering.{Gathers, From};
ghost use Rattle.lolepop.specs.Derived.{is_better_plan};
ghost use Rattle.exchange.specs.Places.{IsBestOf, SplitWay};
ghost use Rattle.plan_offers.specs.Targets.{target_of};
ghost use Rattle.search_places.specs.Searching.{IsOpen};
ghost use Rattle.search_places.specs.Shared.{HoldsShared};

use crate::bodies::plans_of_call;
use dominance_prune::PlanSet;
use lolepop::Entry;
use plan_offers::{Target, add_goals};
use search_places::{Search, root_name};
use shared_sets::{RefTable, Tables};
use star_model::sets::QuantSet;
use star_value::root_values;
use std::alloc::{AllocError, Global};

/// The best plans of the search's goal: of all that is derived for it, what nothing else may stand
/// in place of. What the tables hold isn't made again, for this goal and others.
pub fn goal_plans(
    alloc: Global,
    search: &Search<'_>,
    tables: &mut Tables,
) -> Result<PlanSet<Entry>, AllocError>
    requires open { IsOpen search.now }
    requires shared { HoldsShared search.now.query.now search.now.rules.now tables.old }
    ensures best { IfOk result (IsBestOf search.now.query.now search.now.rules.now
        (ForGoal search.now.goal.tables search.now.goal.pushed)) }
    ensures shared { HoldsShared search.now.query.now search.now.rules.now tables.new }
{
    let target = Target::of_goal(search.query, search.goal);
    let mut out = PlanSet::new(alloc);
    if search.goal.tables.len() == 1 {
        add_split(alloc, search, &target, &None, tables, &mut out)?;
    } else {
        add_splits(alloc, search, &target, tables, &mut out)?;
    }
    out.apart();
    Ok(out)
}

// Offers the plans of each split of several quantifiers.
fn add_splits(
    alloc: Global,
    search: &Search<'_>,
    target: &Target,
    tables: &mut Tables,
    out: &mut PlanSet<Entry>,
) -> Result<(), AllocError>
    requires open { IsOpen search.now }
    requires target { target.now ≡ target_of search.now.query.now search.now.goal }
    requires several { nat_eq (size search.now.goal.tables) 1 ≡ false }
    requires shared { HoldsShared search.now.query.now search.now.rules.now tables.old }
    ensures gathered { OnOk result (Gathers is_better_plan out.old out.new
        (From (splits search.now.goal.tables)
        (λ p. SplitWay search.now.query.now search.now.rules.now search.now.goal.tables
        search.now.goal.pushed (Some p)))) }
    ensures shared { HoldsShared search.now.query.now search.now.rules.now tables.new }
{
    for split in search.goal.tables.splits() {
        add_split(alloc, search, target, &Some(split), tables, out)?;
    }
    Ok(())
}

// Offers the plans of the split's root STAR that meet the target.
fn add_split(
    alloc: Global,
    search: &Search<'_>,
    target: &Target,
    split: &Option<(QuantSet, QuantSet)>,
    tables: &mut Tables,
    out: &mut PlanSet<Entry>,
) -> Result<(), AllocError>
    requires open { IsOpen search.now }
    requires target { target.now ≡ target_of search.now.query.now search.now.goal }
    requires split { may_split search.now.goal.tables split.now ≡ true }
    requires shared { HoldsShared search.now.query.now search.now.rules.now tables.old }
    ensures gathered { OnOk result (Gathers is_better_plan out.old out.new
        (SplitWay search.now.query.now search.now.rules.now search.now.goal.tables
        search.now.goal.pushed split.now)) }
    ensures shared { HoldsShared search.now.query.now search.now.rules.now tables.new }
{
    search.rules.stands();
    let values = root_values(search.goal, *split);
    let root = root_name(search.rules, *split);
    // References have other values in other splits.
    tables.references = RefTable::new(alloc);
    let plans = plans_of_call(alloc, search, root, &values, tables)?;
    add_goals(alloc, target, *split, &plans, out)
}
