// What chains make of plans. The vector is tested before any of it is made.

ghost use Rattle.std.specs.Prelude.{◌≡◌, ◌≤◌, length, map, All, IfOk, OnOk};
ghost use Rattle.star_model.specs.WellFormed.{WellFormedQuery};
ghost use Rattle.dominance_prune.specs.Gathering.{Gathers, From};
ghost use Rattle.lolepop.specs.Derived.{is_better_plan, chained};
ghost use Rattle.glue.specs.Gluing.{is_wanted, ChainsTo, ChainsOver};

use crate::chains::chain_of;
use dominance_prune::PlanSet;
use lolepop::{Entry, glue_operator, is_chain, step};
use plan_offers::is_covered;
use property_vector::satisfies;
use star_model::costs::Costs;
use star_model::plans::{GlueOp, Props, Require};
use star_model::query::Query;
use std::alloc::{AllocError, Global};
use std::slice;

/// Offers what the chains among these lists make of each member, where the vector satisfies the
/// requirement.
pub fn add_chains(
    alloc: Global,
    query: &Query,
    costs: &Costs,
    require: &Require,
    lists: &[&[GlueOp]],
    plans: &PlanSet<Entry>,
    out: &mut PlanSet<Entry>,
) -> Result<(), AllocError>
    requires query { WellFormedQuery query.now }
    requires few { All (λ words. length words.now ≤ 3) lists.now }
    ensures { OnOk result (Gathers is_better_plan out.old out.new
        (From (map (λ words. words.now) lists.now)
        (ChainsOver query.now costs.now require.now plans.now))) }
{
    for words in lists {
        add_chain(alloc, query, costs, require, words, plans, out)?;
    }
    Ok(())
}

// Offers what the chain makes of each member, if the requirement names its operators and the vector
// satisfies it.
fn add_chain(
    alloc: Global,
    query: &Query,
    costs: &Costs,
    require: &Require,
    words: &[GlueOp],
    plans: &PlanSet<Entry>,
    out: &mut PlanSet<Entry>,
) -> Result<(), AllocError>
    requires query { WellFormedQuery query.now }
    requires few { length words.now ≤ 3 }
    ensures { OnOk result (Gathers is_better_plan out.old out.new
        (ChainsOver query.now costs.now require.now plans.now words.now)) }
{
    if !is_chain(require, words) {
        return Ok(());
    }
    for plan in plans.iter() {
        offer_chain(alloc, query, costs, require, words, plan, out)?;
    }
    Ok(())
}

fn offer_chain(
    alloc: Global,
    query: &Query,
    costs: &Costs,
    require: &Require,
    words: &[GlueOp],
    plan: &Entry,
    out: &mut PlanSet<Entry>,
) -> Result<(), AllocError>
    requires query { WellFormedQuery query.now }
    requires few { length words.now ≤ 3 }
    ensures { OnOk result (Gathers is_better_plan out.old out.new
        (ChainsTo query.now costs.now require.now words.now plan.now)) }
{
    if !is_wanted(query, costs, require, words, plan.props(), out) {
        return Ok(());
    }
    let Some(made) = chained(alloc, query, costs, require, words, plan)? else {
        return Ok(());
    };
    let glued = made.glued(alloc, chain_of(words))?;
    out.offer(glued)?;
    Ok(())
}

// Whether the chain is applicable over the vector and its vector satisfies the requirement, with no
// member of the set as good. It takes no memory.
fn is_wanted(
    query: &Query,
    costs: &Costs,
    require: &Require,
    words: &[GlueOp],
    props: &Props,
    out: &PlanSet<Entry>,
) -> bool
    requires { WellFormedQuery query.now }
    ensures { result ≡ is_wanted query.now costs.now require.now words.now props.now out.now }
{
    match words {
        [] => satisfies(query, props, require) && !is_covered(out, props),
        [word, more @ ..] => {
            let op = glue_operator(require, *word);
            match step(query, costs, &op, slice::from_ref(props)) {
                None => false,
                Some(next) => is_wanted(query, costs, require, more, &next, out),
            }
        }
    }
}

// The operators of the chain over the plan; none where one isn't applicable.
fn chained(
    alloc: Global,
    query: &Query,
    costs: &Costs,
    require: &Require,
    words: &[GlueOp],
    plan: &Entry,
) -> Result<Option<Entry>, AllocError>
    requires { WellFormedQuery query.now }
    ensures { IfOk result (λ made. made ≡ chained query.now costs.now require.now words.now
        plan.now) }
{
    match words {
        [] => Ok(Some(plan.clone()?)),
        [word, more @ ..] => {
            let op = glue_operator(require, *word);
            let Some(props) = plan.vector_under(query, costs, &op) else {
                return Ok(None);
            };
            let next = plan.enforced(alloc, op, props)?;
            chained(alloc, query, costs, require, more, &next)
        }
    }
}
