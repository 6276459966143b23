// Operators in a body, over the sets of their inputs.

ghost use Rattle.std.specs.Prelude.{IfOk};
ghost use Rattle.star_model.specs.Costs.{costs_of};
ghost use Rattle.star_model.specs.Expected.{operator_of, values_of};
ghost use Rattle.star_model.specs.WellFormed.{WellFormedQuery};
ghost use Rattle.dominance_prune.specs.Gathering.{From, IsFrontier};
ghost use Rattle.lolepop.specs.Derived.{is_better_plan};
ghost use Rattle.exchange.specs.Places.{LeafWay, OverOne, OverTwo};

use dominance_prune::PlanSet;
use lolepop::Entry;
use plan_offers::{binary_plans, leaf_plans, unary_plans};
use search_places::Search;
use shared_sets::SharedSet;
use star_model::rules::{Flavour, ValueExpr};
use star_value::{Env, operator};
use std::alloc::{AllocError, Global};

/// The best of what the operator with these arguments makes of nothing.
pub fn over_nothing(
    alloc: Global,
    search: &Search<'_>,
    flavour: Flavour,
    args: &[ValueExpr],
    env: &Env,
) -> Result<SharedSet, AllocError>
    requires { WellFormedQuery search.now.query.now }
    ensures { IfOk result (IsFrontier is_better_plan
        (LeafWay search.now.query.now (costs_of search.now.rules.now) flavour args.now env.now)) }
{
    let op = operator(flavour, args, env, search.query);
    let plans = leaf_plans(alloc, search.query, search.rules.costs(), &op)?;
    SharedSet::new(alloc, plans)
}

/// The best of what it makes of these inputs.
pub fn over_one(
    alloc: Global,
    search: &Search<'_>,
    flavour: Flavour,
    args: &[ValueExpr],
    env: &Env,
    inputs: &PlanSet<Entry>,
) -> Result<SharedSet, AllocError>
    requires { WellFormedQuery search.now.query.now }
    ensures { IfOk result (IsFrontier is_better_plan
        (From inputs.now (OverOne search.now.query.now (costs_of search.now.rules.now) flavour
        (operator_of flavour (values_of search.now.query.now env.now args.now))))) }
{
    let op = operator(flavour, args, env, search.query);
    let plans = unary_plans(alloc, search.query, search.rules.costs(), &op, inputs)?;
    SharedSet::new(alloc, plans)
}

/// The best of what it makes of these left inputs and right inputs.
pub fn over_two(
    alloc: Global,
    search: &Search<'_>,
    flavour: Flavour,
    args: &[ValueExpr],
    env: &Env,
    lefts: &PlanSet<Entry>,
    rights: &PlanSet<Entry>,
) -> Result<SharedSet, AllocError>
    requires { WellFormedQuery search.now.query.now }
    ensures { IfOk result (IsFrontier is_better_plan
        (From lefts.now (λ l. From rights.now
        (OverTwo search.now.query.now (costs_of search.now.rules.now) flavour
        (operator_of flavour (values_of search.now.query.now env.now args.now)) l)))) }
{
    let op = operator(flavour, args, env, search.query);
    let costs = search.rules.costs();
    let plans = binary_plans(alloc, search.query, costs, &op, lefts, rights)?;
    SharedSet::new(alloc, plans)
}
