// What the parts of a node stand against that stands against a body under bindings; none where the
// node doesn't fit. None of it takes memory.

ghost use Rattle.std.specs.Prelude.{◌≡◌};
ghost use Rattle.std.specs.Option.{option_map, option_copied};
ghost use Rattle.star_model.specs.Costs.{same_flavour};
ghost use Rattle.star_model.specs.Expected.{Expression, ForGoal, glue_of, as_call, leaf_of, unary_of, binary_of, as_leaf, as_unary, as_binary};
ghost use Rattle.star_model.specs.WellFormed.{WellFormedQuery};
ghost use Rattle.plan_check.specs.Places.{IsPlace};

use crate::answers::Basis;
use star_model::lists::{List, Name};
use star_model::plans::{Goal, Op, Require};
use star_model::query::Query;
use star_model::rules::{Flavour, PlanExpr, ValueExpr};
use star_value::{Env, glued_goal, operator, preds, stream, values};

// What a Glue node satisfies, and its goal.
#[tactic(auto, using(star_model::specs::PlanExprCases::planExprCases_made))]
pub fn glue_of(expr: &PlanExpr, env: &Env, query: &Query) -> Option<(Require, Goal)>
    requires { WellFormedQuery query.now }
    ensures { option_map (λ p. (p.0, ForGoal p.1.tables p.1.pushed)) result
        ≡ glue_of query.now (Expression expr.now env.now) }
{
    match expr {
        PlanExpr::Glue {
            stream: over,
            preds: applied,
        } => {
            let wanted = stream(over, env, query);
            let goal = glued_goal(query, wanted.tables, preds(applied, env, query));
            Some((wanted.require, goal))
        }
        PlanExpr::Reference { .. } => None,
        PlanExpr::Leaf { .. } => None,
        PlanExpr::Unary { .. } => None,
        PlanExpr::Binary { .. } => None,
    }
}

// The STAR that a reference calls, and the values of its parameters.
#[tactic(auto, using(star_model::specs::PlanExprCases::planExprCases_made))]
pub fn called<'a>(basis: &Basis<'_>, expr: &'a PlanExpr, env: &Env) -> Option<(&'a Name, Env)>
    requires query { WellFormedQuery basis.now.query.now }
    requires place { IsPlace basis.now.rules.now (Expression expr.now env.now) }
    ensures { option_map (λ p. (p.0.now, p.1)) result
        ≡ as_call basis.now.query.now (Expression expr.now env.now) }
{
    basis.rules.stands();
    match expr {
        PlanExpr::Reference { star, args } => {
            Some((star, values(args.as_slice(), env, basis.query)))
        }
        PlanExpr::Glue { .. } => None,
        PlanExpr::Leaf { .. } => None,
        PlanExpr::Unary { .. } => None,
        PlanExpr::Binary { .. } => None,
    }
}

fn is_same(flavour: Flavour, other: Flavour) -> bool
    ensures { result ≡ same_flavour flavour other }
{
    flavour == other
}

// The arguments of this operator without inputs.
#[tactic(auto, using(star_model::specs::ExpectedEquations::leaf_of_cases))]
fn leaf_of(flavour: Flavour, expr: &PlanExpr) -> Option<&List<ValueExpr>>
    ensures { option_copied result ≡ leaf_of flavour expr.now }
{
    match expr {
        PlanExpr::Leaf {
            flavour: wanted,
            args,
        } => {
            if is_same(flavour, *wanted) {
                Some(args)
            } else {
                None
            }
        }
        PlanExpr::Reference { .. } => None,
        PlanExpr::Glue { .. } => None,
        PlanExpr::Unary { .. } => None,
        PlanExpr::Binary { .. } => None,
    }
}

// The arguments and the input of this operator with one input.
#[tactic(auto, using(star_model::specs::ExpectedEquations::unary_of_cases))]
fn unary_of(flavour: Flavour, expr: &PlanExpr) -> Option<(&List<ValueExpr>, &PlanExpr)>
    ensures { option_map (λ p. (p.0.now, p.1.now)) result ≡ unary_of flavour expr.now }
{
    match expr {
        PlanExpr::Unary {
            flavour: wanted,
            args,
            input,
        } => {
            if is_same(flavour, *wanted) {
                Some((args, input.get()))
            } else {
                None
            }
        }
        PlanExpr::Reference { .. } => None,
        PlanExpr::Glue { .. } => None,
        PlanExpr::Leaf { .. } => None,
        PlanExpr::Binary { .. } => None,
    }
}

// The arguments and the inputs of this operator with two inputs.
#[tactic(auto, using(star_model::specs::ExpectedEquations::binary_of_cases))]
fn binary_of(flavour: Flavour, expr: &PlanExpr) -> Option<(&List<ValueExpr>, &PlanExpr, &PlanExpr)>
    ensures { option_map (λ p. (p.0.now, p.1.now, p.2.now)) result ≡ binary_of flavour expr.now }
{
    match expr {
        PlanExpr::Binary {
            flavour: wanted,
            args,
            left,
            right,
        } => {
            if is_same(flavour, *wanted) {
                Some((args, left.get(), right.get()))
            } else {
                None
            }
        }
        PlanExpr::Reference { .. } => None,
        PlanExpr::Glue { .. } => None,
        PlanExpr::Leaf { .. } => None,
        PlanExpr::Unary { .. } => None,
    }
}

// The operator of a node without inputs.
pub fn as_leaf(flavour: Flavour, expr: &PlanExpr, env: &Env, query: &Query) -> Option<Op>
    requires { WellFormedQuery query.now }
    ensures { result ≡ as_leaf query.now flavour (Expression expr.now env.now) }
{
    let args = leaf_of(flavour, expr)?;
    Some(operator(flavour, args.as_slice(), env, query))
}

// The operator of a node with one input, and what the input stands against.
pub fn as_unary<'a>(
    flavour: Flavour,
    expr: &'a PlanExpr,
    env: &Env,
    query: &Query,
) -> Option<(Op, &'a PlanExpr)>
    requires { WellFormedQuery query.now }
    ensures { option_map (λ p. (p.0, Expression p.1.now env.now)) result
        ≡ as_unary query.now flavour (Expression expr.now env.now) }
{
    let (args, input) = unary_of(flavour, expr)?;
    Some((operator(flavour, args.as_slice(), env, query), input))
}

// The operator of a node with two inputs, and what they stand against.
pub fn as_binary<'a>(
    flavour: Flavour,
    expr: &'a PlanExpr,
    env: &Env,
    query: &Query,
) -> Option<(Op, &'a PlanExpr, &'a PlanExpr)>
    requires { WellFormedQuery query.now }
    ensures { option_map (λ p. (p.0, Expression p.1.now env.now, Expression p.2.now env.now)) result
        ≡ as_binary query.now flavour (Expression expr.now env.now) }
{
    let (args, left, right) = binary_of(flavour, expr)?;
    Some((operator(flavour, args.as_slice(), env, query), left, right))
}
