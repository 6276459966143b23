// Glue over a set.

ghost use Rattle.std.specs.Prelude.{IfOk};
ghost use Rattle.star_model.specs.WellFormed.{WellFormedQuery};
ghost use Rattle.dominance_prune.specs.Gathering.{From, IsFrontier};
ghost use Rattle.lolepop.specs.Derived.{is_better_plan, GluesTo, AllFit};

use crate::chains::CHAINS;
use crate::offering::add_chains;
use dominance_prune::PlanSet;
use lolepop::Entry;
use star_model::costs::Costs;
use star_model::plans::Require;
use star_model::query::Query;
use std::alloc::{AllocError, Global};

/// What satisfies the requirement of all that chains of its operators make of the members: the best
/// of it.
pub fn glue(
    alloc: Global,
    query: &Query,
    costs: &Costs,
    plans: &PlanSet<Entry>,
    require: &Require,
) -> Result<PlanSet<Entry>, AllocError>
    requires query { WellFormedQuery query.now }
    requires fits { AllFit query.now costs.now plans.now }
    ensures glued { IfOk result (IsFrontier is_better_plan
        (From plans.now (GluesTo query.now costs.now require.now))) }
    ensures fits { IfOk result (AllFit query.now costs.now) }
{
    let mut out = PlanSet::new(alloc);
    add_chains(alloc, query, costs, require, &CHAINS, plans, &mut out)?;
    out.apart();
    Ok(out)
}
