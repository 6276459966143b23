// Judging of a derivation, node by node from the top. The recursion leaves a node at once where it
// doesn't fit: however deep the tree is, it goes no deeper than the rules do. In what reading
// accepts they lead through 12 goals of ever fewer quantifiers, each below a Glue node, and in each
// through 16 STARs one above another, each a reference over at most 8 levels of a body, which makes
// at most 1,752 levels.

ghost use Rattle.std.specs.Prelude.{◌≡◌, ◌<◌, ◌≤◌, ◌+◌, ◌^◌, Some, IfOk, IfErr};
ghost use Rattle.star_model.specs.Expected.{Expected, Expression, ForGoal, Call, glue_of, root_requirement, query_goal};
ghost use Rattle.star_model.specs.Judging.{Vector, FirstInvalid, judge, judge_root, node_count};
ghost use Rattle.star_model.specs.WellFormed.{WellFormedQuery};
ghost use Rattle.star_model.specs.declared.derivations.Deriv.TheVariants as made;
ghost use Rattle.plan_check.specs.Judged.{Tells};
ghost use Rattle.plan_check.specs.Places.{IsPlace};

use crate::answers::{Basis, Judged, NotDerived, Referred};
use crate::bodies::reference_body;
use crate::goals::goal_body;
use crate::parts::{as_binary, as_leaf, as_unary, called, glue_of};
use crate::results::{enforced, stepped, targeted};
use lolepop::is_chain;
use star_check::CheckedRules;
use star_model::columns::ColList;
use star_model::derivations::Deriv;
use star_model::plans::{Chain, Goal, Props, Require};
use star_model::query::Query;
use star_model::rules::{Flavour, PlanExpr};
use star_model::sets::PredSet;
use star_value::{Env, all_quants};

// A tree against a body under bindings.
#[cycle(judging)]
#[tactic(auto, using(star_model::specs::JudgingEquations::judge_cases, star_model::specs::JudgingEquations::node_count_cases))]
fn judge_expression(
    basis: &Basis<'_>,
    deriv: &Deriv,
    expr: &PlanExpr,
    env: &Env,
    node: u32,
) -> Result<Judged, NotDerived>
    requires query { WellFormedQuery basis.now.query.now }
    requires place { IsPlace basis.now.rules.now (Expression expr.now env.now) }
    requires room { node + node_count deriv.now ≤ 2 ^ 32 }
    ensures { Tells result (judge basis.now.query.now basis.now.rules.now deriv.now
        (Expression expr.now env.now) node) (node + node_count deriv.now) }
{
    match deriv {
        Deriv::Glue { chain, goal } => judge_glue(basis, chain, goal.get(), expr, env, node),
        Deriv::Goal { .. } => Err(NotDerived { node }),
        Deriv::Reference {
            star,
            alternative,
            values,
            body,
        } => {
            let referred = Referred {
                star,
                alternative: *alternative,
                values,
            };
            judge_reference(basis, &referred, body.get(), expr, env, node)
        }
        Deriv::Leaf { flavour } => match as_leaf(*flavour, expr, env, basis.query) {
            None => Err(NotDerived { node }),
            Some(op) => stepped(basis, &op, &[], node, node),
        },
        Deriv::Unary { flavour, input } => {
            judge_unary(basis, *flavour, input.get(), expr, env, node)
        }
        Deriv::Binary {
            flavour,
            left,
            right,
        } => judge_binary(basis, *flavour, left.get(), right.get(), expr, env, node),
    }
}

#[cycle(judging)]
#[inline(never)]
#[tactic(auto, using(star_model::specs::JudgingEquations::judge_cases, star_model::specs::JudgingEquations::node_count_cases))]
fn judge_unary(
    basis: &Basis<'_>,
    flavour: Flavour,
    input: &Deriv,
    expr: &PlanExpr,
    env: &Env,
    node: u32,
) -> Result<Judged, NotDerived>
    requires query { WellFormedQuery basis.now.query.now }
    requires place { IsPlace basis.now.rules.now (Expression expr.now env.now) }
    requires room { node + 1 + node_count input.now ≤ 2 ^ 32 }
    ensures { Tells result (judge basis.now.query.now basis.now.rules.now
        (made.Unary flavour input.now) (Expression expr.now env.now) node)
        (node + 1 + node_count input.now) }
{
    basis.rules.stands();
    let Some((op, part)) = as_unary(flavour, expr, env, basis.query) else {
        return Err(NotDerived { node });
    };
    match judge_expression(basis, input, part, env, node + 1) {
        Err(invalid) => Err(invalid),
        Ok(below) => {
            let last = below.last;
            stepped(basis, &op, &[below.props], node, last)
        }
    }
}

#[cycle(judging)]
#[inline(never)]
#[tactic(auto, using(star_model::specs::JudgingEquations::judge_cases, star_model::specs::JudgingEquations::node_count_cases))]
fn judge_binary(
    basis: &Basis<'_>,
    flavour: Flavour,
    left: &Deriv,
    right: &Deriv,
    expr: &PlanExpr,
    env: &Env,
    node: u32,
) -> Result<Judged, NotDerived>
    requires query { WellFormedQuery basis.now.query.now }
    requires place { IsPlace basis.now.rules.now (Expression expr.now env.now) }
    requires room { node + 1 + node_count left.now + node_count right.now ≤ 2 ^ 32 }
    ensures { Tells result (judge basis.now.query.now basis.now.rules.now
        (made.Binary flavour left.now right.now) (Expression expr.now env.now) node)
        (node + 1 + node_count left.now + node_count right.now) }
{
    basis.rules.stands();
    let Some((op, first, second)) = as_binary(flavour, expr, env, basis.query) else {
        return Err(NotDerived { node });
    };
    match judge_expression(basis, left, first, env, node + 1) {
        Err(invalid) => Err(invalid),
        Ok(before) => match judge_expression(basis, right, second, env, before.last + 1) {
            Err(invalid) => Err(invalid),
            Ok(after) => {
                let last = after.last;
                stepped(basis, &op, &[before.props, after.props], node, last)
            }
        },
    }
}

// A reference node against a body.
#[cycle(judging)]
#[inline(never)]
#[tactic(auto, using(star_model::specs::JudgingEquations::judge_cases, star_model::specs::JudgingEquations::node_count_cases))]
fn judge_reference(
    basis: &Basis<'_>,
    referred: &Referred<'_>,
    body: &Deriv,
    expr: &PlanExpr,
    env: &Env,
    node: u32,
) -> Result<Judged, NotDerived>
    requires query { WellFormedQuery basis.now.query.now }
    requires place { IsPlace basis.now.rules.now (Expression expr.now env.now) }
    requires room { node + 1 + node_count body.now ≤ 2 ^ 32 }
    ensures { Tells result (judge basis.now.query.now basis.now.rules.now
        (made.Reference referred.now.star.now referred.now.alternative referred.now.values.now
        body.now) (Expression expr.now env.now) node) (node + 1 + node_count body.now) }
{
    basis.rules.stands();
    match called(basis, expr, env) {
        None => Err(NotDerived { node }),
        Some((star, call)) => judge_body(basis, referred, body, star.as_slice(), call, node),
    }
}

// A reference node against a call of the STAR of these letters.
#[cycle(judging)]
#[inline(never)]
#[tactic(auto, using(star_model::specs::JudgingEquations::judge_cases, star_model::specs::JudgingEquations::node_count_cases))]
fn judge_body(
    basis: &Basis<'_>,
    referred: &Referred<'_>,
    body: &Deriv,
    letters: &[u8],
    call: Env,
    node: u32,
) -> Result<Judged, NotDerived>
    requires query { WellFormedQuery basis.now.query.now }
    requires place { IsPlace basis.now.rules.now (Call letters.now call) }
    requires room { node + 1 + node_count body.now ≤ 2 ^ 32 }
    ensures { Tells result (judge basis.now.query.now basis.now.rules.now
        (made.Reference referred.now.star.now referred.now.alternative referred.now.values.now
        body.now) (Call letters.now call) node) (node + 1 + node_count body.now) }
{
    basis.rules.stands();
    match reference_body(basis, referred, letters, call) {
        None => Err(NotDerived { node }),
        Some((expr, env)) => judge_expression(basis, body, expr, &env, node + 1),
    }
}

// A tree against a call of the STAR of these letters.
#[cycle(judging)]
#[tactic(auto, using(star_model::specs::JudgingEquations::judge_cases, star_model::specs::JudgingEquations::node_count_cases))]
fn judge_call(
    basis: &Basis<'_>,
    deriv: &Deriv,
    letters: &[u8],
    call: Env,
    node: u32,
) -> Result<Judged, NotDerived>
    requires query { WellFormedQuery basis.now.query.now }
    requires place { IsPlace basis.now.rules.now (Call letters.now call) }
    requires room { node + node_count deriv.now ≤ 2 ^ 32 }
    ensures { Tells result (judge basis.now.query.now basis.now.rules.now deriv.now
        (Call letters.now call) node) (node + node_count deriv.now) }
{
    match deriv {
        Deriv::Reference {
            star,
            alternative,
            values,
            body,
        } => {
            let referred = Referred {
                star,
                alternative: *alternative,
                values,
            };
            judge_body(basis, &referred, body.get(), letters, call, node)
        }
        Deriv::Glue { .. }
        | Deriv::Goal { .. }
        | Deriv::Leaf { .. }
        | Deriv::Unary { .. }
        | Deriv::Binary { .. } => Err(NotDerived { node }),
    }
}

// A tree against a goal.
#[cycle(judging)]
#[tactic(auto, using(star_model::specs::JudgingEquations::judge_cases, star_model::specs::JudgingEquations::node_count_cases))]
fn judge_goal(
    basis: &Basis<'_>,
    deriv: &Deriv,
    wanted: Goal,
    node: u32,
) -> Result<Judged, NotDerived>
    requires query { WellFormedQuery basis.now.query.now }
    requires place { IsPlace basis.now.rules.now (ForGoal wanted.tables wanted.pushed) }
    requires room { node + node_count deriv.now ≤ 2 ^ 32 }
    ensures { Tells result (judge basis.now.query.now basis.now.rules.now deriv.now
        (ForGoal wanted.tables wanted.pushed) node) (node + node_count deriv.now) }
{
    match deriv {
        Deriv::Goal { goal, split, body } => {
            basis.rules.stands();
            match goal_body(wanted, goal, split) {
                None => Err(NotDerived { node }),
                Some((letters, call)) => {
                    match judge_call(basis, body.get(), letters, call, node + 1) {
                        Err(invalid) => Err(invalid),
                        Ok(below) => targeted(basis, goal, below, node),
                    }
                }
            }
        }
        Deriv::Glue { .. }
        | Deriv::Reference { .. }
        | Deriv::Leaf { .. }
        | Deriv::Unary { .. }
        | Deriv::Binary { .. } => Err(NotDerived { node }),
    }
}

// A Glue node against whatever has this requirement and goal.
#[cycle(judging)]
#[inline(never)]
#[tactic(auto, using(star_model::specs::JudgingEquations::judge_cases, star_model::specs::JudgingEquations::node_count_cases))]
fn judge_chain(
    basis: &Basis<'_>,
    chain: &Chain,
    goal: &Deriv,
    require: &Require,
    wanted: Goal,
    node: u32,
) -> Result<Judged, NotDerived>
    requires query { WellFormedQuery basis.now.query.now }
    requires place { IsPlace basis.now.rules.now (ForGoal wanted.tables wanted.pushed) }
    requires room { node + 1 + node_count goal.now ≤ 2 ^ 32 }
    ensures { (x : Expected) → glue_of basis.now.query.now x
        ≡ Some (require.now, ForGoal wanted.tables wanted.pushed)
        → Tells result (judge basis.now.query.now basis.now.rules.now (made.Glue chain.now goal.now)
        x node) (node + 1 + node_count goal.now) }
{
    if !is_chain(require, chain.as_slice()) {
        return Err(NotDerived { node });
    }
    match judge_goal(basis, goal, wanted, node + 1) {
        Err(invalid) => Err(invalid),
        Ok(below) => enforced(basis, require, chain, below, node),
    }
}

// A Glue node against a body.
#[cycle(judging)]
#[inline(never)]
#[tactic(auto, using(star_model::specs::JudgingEquations::judge_cases, star_model::specs::JudgingEquations::node_count_cases))]
fn judge_glue(
    basis: &Basis<'_>,
    chain: &Chain,
    goal: &Deriv,
    expr: &PlanExpr,
    env: &Env,
    node: u32,
) -> Result<Judged, NotDerived>
    requires query { WellFormedQuery basis.now.query.now }
    requires place { IsPlace basis.now.rules.now (Expression expr.now env.now) }
    requires room { node + 1 + node_count goal.now ≤ 2 ^ 32 }
    ensures { Tells result (judge basis.now.query.now basis.now.rules.now
        (made.Glue chain.now goal.now) (Expression expr.now env.now) node)
        (node + 1 + node_count goal.now) }
{
    basis.rules.stands();
    match glue_of(expr, env, basis.query) {
        None => Err(NotDerived { node }),
        Some((require, wanted)) => judge_chain(basis, chain, goal, &require, wanted, node),
    }
}

// What is required of the query's plans: its order and site.
fn root_requirement(query: &Query) -> Require
    ensures { result ≡ root_requirement query.now }
{
    Require {
        order: query.order.copied(),
        site: query.site,
        temp: false,
        path: ColList::new(),
    }
}

// All quantifiers of the query, and no predicates on others.
fn query_goal(query: &Query) -> Goal
    requires { WellFormedQuery query.now }
    ensures { ForGoal result.tables result.pushed ≡ query_goal query.now }
{
    Goal {
        tables: all_quants(query),
        pushed: PredSet::empty(),
    }
}

/// Judges a whole derivation, which anyone may have written: it may name STARs, alternatives and
/// members that aren't there, and goals and operators that don't belong where they stand. Of a
/// derivation of the query under the rules it gives the properties of its plan, with their costs
/// under the rules' formulas; of any other tree the first invalid node.
///
/// Each node is judged once, and none below one that doesn't fit. It takes no memory. How much it
/// takes of the stack depends on how deep the rules nest and not on the tree: under 3 MiB, as
/// measured.
#[tactic(auto, using(star_model::specs::JudgingEquations::judge_cases))]
pub fn check_derivation(
    rules: &CheckedRules,
    query: &Query,
    deriv: &Deriv,
) -> Result<Props, NotDerived>
    requires query { WellFormedQuery query.now }
    requires size { node_count deriv.now < 2 ^ 32 }
    ensures derived { IfOk result (λ v. judge_root query.now rules.now deriv.now ≡ Vector v) }
    ensures invalid { IfErr result (λ e. judge_root query.now rules.now deriv.now
        ≡ FirstInvalid e.node) }
{
    rules.stands();
    let basis = Basis { rules, query };
    match deriv {
        Deriv::Glue { chain, goal } => {
            let require = root_requirement(query);
            match judge_chain(&basis, chain, goal.get(), &require, query_goal(query), 1) {
                Err(invalid) => Err(invalid),
                Ok(whole) => Ok(whole.props),
            }
        }
        Deriv::Goal { .. }
        | Deriv::Reference { .. }
        | Deriv::Leaf { .. }
        | Deriv::Unary { .. }
        | Deriv::Binary { .. } => Err(NotDerived { node: 1 }),
    }
}
