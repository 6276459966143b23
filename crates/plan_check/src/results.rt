// What a node makes of the vectors of the trees below it.

ghost use Rattle.std.specs.Prelude.{◌≡◌, ◌+◌, option_and_then};
ghost use Rattle.star_model.specs.Costs.{costs_of};
ghost use Rattle.star_model.specs.Goals.{is_target};
ghost use Rattle.star_model.specs.Judging.{vector_or, only_if};
ghost use Rattle.star_model.specs.Operators.{step};
ghost use Rattle.star_model.specs.Plans.{chain_vector};
ghost use Rattle.star_model.specs.Requirements.{satisfies};
ghost use Rattle.star_model.specs.WellFormed.{WellFormedQuery};
ghost use Rattle.plan_check.specs.Judged.{Tells};

use crate::answers::{Basis, Judged, NotDerived, answer};
use crate::chains::chain_vector;
use crate::goals::is_target;
use lolepop::step;
use property_vector::satisfies;
use star_model::plans::{Chain, Goal, Op, Props, Require};
use star_model::query::Query;

// The operator over inputs with these vectors.
#[inline(never)]
pub fn stepped(
    basis: &Basis<'_>,
    op: &Op,
    inputs: &[Props],
    node: u32,
    last: u32,
) -> Result<Judged, NotDerived>
    requires { WellFormedQuery basis.now.query.now }
    ensures { Tells result (vector_or node (step basis.now.query.now (costs_of basis.now.rules.now)
        op.now inputs.now)) (last + 1) }
{
    let made = step(basis.query, basis.rules.costs(), op, inputs);
    answer(made, node, last)
}

fn only_satisfying(query: &Query, require: &Require, props: Props) -> Option<Props>
    requires { WellFormedQuery query.now }
    ensures { result ≡ only_if (λ v. satisfies query.now v require.now) props }
{
    if satisfies(query, &props, require) {
        Some(props)
    } else {
        None
    }
}

// The vector of the chain over the input, if it satisfies the requirement.
fn chained(basis: &Basis<'_>, require: &Require, chain: &Chain, input: Props) -> Option<Props>
    requires { WellFormedQuery basis.now.query.now }
    ensures { result ≡ option_and_then (only_if (λ v. satisfies basis.now.query.now v require.now))
        (chain_vector basis.now.query.now (costs_of basis.now.rules.now) require.now chain.now
        input) }
{
    let costs = basis.rules.costs();
    let made = chain_vector(basis.query, costs, require, chain.as_slice(), input)?;
    only_satisfying(basis.query, require, made)
}

// The chain over the goal's vector.
#[inline(never)]
pub fn enforced(
    basis: &Basis<'_>,
    require: &Require,
    chain: &Chain,
    below: Judged,
    node: u32,
) -> Result<Judged, NotDerived>
    requires { WellFormedQuery basis.now.query.now }
    ensures { Tells result (vector_or node (option_and_then
        (only_if (λ v. satisfies basis.now.query.now v require.now))
        (chain_vector basis.now.query.now (costs_of basis.now.rules.now) require.now chain.now
        below.props))) (below.last + 1) }
{
    let last = below.last;
    answer(chained(basis, require, chain, below.props), node, last)
}

fn only_of_goal(query: &Query, goal: &Goal, props: Props) -> Option<Props>
    requires { WellFormedQuery query.now }
    ensures { result ≡ only_if (is_target query.now goal.now.tables goal.now.pushed) props }
{
    if is_target(query, goal, &props) {
        Some(props)
    } else {
        None
    }
}

// The vector of the goal's body.
#[inline(never)]
pub fn targeted(
    basis: &Basis<'_>,
    goal: &Goal,
    below: Judged,
    node: u32,
) -> Result<Judged, NotDerived>
    requires { WellFormedQuery basis.now.query.now }
    ensures { Tells result (vector_or node (only_if
        (is_target basis.now.query.now goal.now.tables goal.now.pushed) below.props))
        (below.last + 1) }
{
    let last = below.last;
    answer(only_of_goal(basis.query, goal, below.props), node, last)
}
