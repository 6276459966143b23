// What a goal makes of each member of a set. Its plan has the member's vector.

ghost use Rattle.std.specs.Prelude.{◌≡◌, true, OnOk};
ghost use Rattle.dominance_prune.specs.Gathering.{Gathers, From};
ghost use Rattle.lolepop.specs.Derived.{is_better_plan, vector_of, under_goal};
ghost use Rattle.plan_offers.specs.Targets.{meets_target};

use crate::coverage::is_covered;
use crate::target::Target;
use dominance_prune::PlanSet;
use lolepop::Entry;
use star_model::sets::QuantSet;
use std::alloc::{AllocError, Global};

/// Offers each member that meets the target, derived for its goal through the split. Where memory
/// is wanting, some were offered.
pub fn add_goals(
    alloc: Global,
    target: &Target,
    split: Option<(QuantSet, QuantSet)>,
    plans: &PlanSet<Entry>,
    out: &mut PlanSet<Entry>,
) -> Result<(), AllocError>
    ensures { OnOk result (Gathers is_better_plan out.old out.new
        (From plans.now (λ i x. (meets_target target.now (vector_of i) ≡ true)
        × (x ≡ under_goal target.now.goal split i)))) }
{
    for plan in plans.iter() {
        offer_goal(alloc, target, &split, plan, out)?;
    }
    Ok(())
}

fn offer_goal(
    alloc: Global,
    target: &Target,
    split: &Option<(QuantSet, QuantSet)>,
    plan: &Entry,
    out: &mut PlanSet<Entry>,
) -> Result<(), AllocError>
    ensures { OnOk result (Gathers is_better_plan out.old out.new
        (λ x. (meets_target target.now (vector_of plan.now) ≡ true)
        × (x ≡ under_goal target.now.goal split.now plan.now))) }
{
    let props = plan.props();
    if !target.is_met(props) {
        return Ok(());
    }
    if is_covered(out, props) {
        return Ok(());
    }
    let entry = plan.reached(alloc, target.goal, *split)?;
    out.offer(entry)?;
    Ok(())
}
