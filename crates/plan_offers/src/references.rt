// What a reference makes of each member of a set. Its plan has the member's vector.

ghost use Rattle.std.specs.Prelude.{◌≡◌, OnOk};
ghost use Rattle.dominance_prune.specs.Gathering.{Gathers, From};
ghost use Rattle.lolepop.specs.Derived.{is_better_plan, under_reference};

use crate::coverage::is_covered;
use dominance_prune::PlanSet;
use lolepop::Entry;
use star_model::derivations::ForAllValues;
use star_model::lists::Name;
use std::alloc::{AllocError, Global};

/// Offers each member, derived through a reference to the alternative of the STAR with these
/// for-all values. Where memory is wanting, some were offered.
pub fn add_references(
    alloc: Global,
    star: &Name,
    number: u32,
    picked: &ForAllValues,
    plans: &PlanSet<Entry>,
    out: &mut PlanSet<Entry>,
) -> Result<(), AllocError>
    ensures { OnOk result (Gathers is_better_plan out.old out.new
        (From plans.now (λ i x. x ≡ under_reference star.now number picked.now i))) }
{
    for plan in plans.iter() {
        offer_reference(alloc, star, number, picked, plan, out)?;
    }
    Ok(())
}

fn offer_reference(
    alloc: Global,
    star: &Name,
    number: u32,
    picked: &ForAllValues,
    plan: &Entry,
    out: &mut PlanSet<Entry>,
) -> Result<(), AllocError>
    ensures { OnOk result (Gathers is_better_plan out.old out.new
        (λ x. x ≡ under_reference star.now number picked.now plan.now)) }
{
    if is_covered(out, plan.props()) {
        return Ok(());
    }
    let entry = plan.referred(alloc, star.copy(alloc)?, number, picked.copied())?;
    out.offer(entry)?;
    Ok(())
}
