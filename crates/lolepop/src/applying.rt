// Plans made of an operator and the plans that it takes.

ghost use Rattle.std.specs.Prelude.{◌≡◌, IfOk, IfSome, All, map};
ghost use Rattle.std.specs.Option.{option_map};
ghost use Rattle.star_model.specs.Operators.{step};
ghost use Rattle.star_model.specs.WellFormed.{WellFormedQuery};
ghost use Rattle.lolepop.specs.PlanTrees.{Fits, top_vector};
ghost use Rattle.lolepop.specs.Applying.{leaf_tree, unary_tree, binary_tree, tree_over};

use crate::inputs::Inputs;
use crate::plan_node::{self, PlanNode};
use crate::steps::step_over;
use star_model::costs::Costs;
use star_model::plans::Op;
use star_model::query::Query;
use std::alloc::{AllocError, Global};
use std::rc::Rc;

/// The plan of the operator over these, which it shares; none where the operator isn't applicable
/// to them.
pub fn apply(
    alloc: Global,
    query: &Query,
    costs: &Costs,
    op: Op,
    inputs: &[Rc<PlanNode>],
) -> Result<Option<Rc<PlanNode>>, AllocError>
    requires query { WellFormedQuery query.now }
    requires inputs { All (Fits query.now costs.now) (map (λ n. n.value) inputs.now) }
    ensures vector { IfOk result (λ made. option_map (λ n. top_vector n.value) made
        ≡ step query.now costs.now op (map (λ n. top_vector n.value) inputs.now)) }
    ensures tree { IfOk result (λ made. option_map (λ n. n.value) made
        ≡ tree_over query.now costs.now op (map (λ n. n.value) inputs.now)) }
    ensures fits { IfOk result (λ made. IfSome made (λ n. Fits query.now costs.now n.value)) }
{
    match inputs {
        [] => leaf(alloc, query, costs, op),
        [input] => unary(alloc, query, costs, op, input),
        [left, right] => binary(alloc, query, costs, op, left, right),
        _ => Ok(None),
    }
}

pub(crate) fn leaf(
    alloc: Global,
    query: &Query,
    costs: &Costs,
    op: Op,
) -> Result<Option<Rc<PlanNode>>, AllocError>
    requires { WellFormedQuery query.now }
    ensures tree { IfOk result (λ made. option_map (λ n. n.value) made
        ≡ leaf_tree query.now costs.now op) }
    ensures fits { IfOk result (λ made. IfSome made (λ n. Fits query.now costs.now n.value)) }
{
    let Some(props) = step_over(query, costs, &op, &Inputs::None) else {
        return Ok(None);
    };
    Ok(Some(Rc::new(alloc, plan_node::leaf(op, props))?))
}

pub(crate) fn unary(
    alloc: Global,
    query: &Query,
    costs: &Costs,
    op: Op,
    input: &Rc<PlanNode>,
) -> Result<Option<Rc<PlanNode>>, AllocError>
    requires query { WellFormedQuery query.now }
    requires input { Fits query.now costs.now input.now.value }
    ensures tree { IfOk result (λ made. option_map (λ n. n.value) made
        ≡ unary_tree query.now costs.now op input.now.value) }
    ensures fits { IfOk result (λ made. IfSome made (λ n. Fits query.now costs.now n.value)) }
{
    let Some(props) = step_over(query, costs, &op, &Inputs::One(input.props())) else {
        return Ok(None);
    };
    Ok(Some(Rc::new(alloc, plan_node::unary(op, props, input.clone()?))?))
}

pub(crate) fn binary(
    alloc: Global,
    query: &Query,
    costs: &Costs,
    op: Op,
    left: &Rc<PlanNode>,
    right: &Rc<PlanNode>,
) -> Result<Option<Rc<PlanNode>>, AllocError>
    requires query { WellFormedQuery query.now }
    requires left { Fits query.now costs.now left.now.value }
    requires right { Fits query.now costs.now right.now.value }
    ensures tree { IfOk result (λ made. option_map (λ n. n.value) made
        ≡ binary_tree query.now costs.now op left.now.value right.now.value) }
    ensures fits { IfOk result (λ made. IfSome made (λ n. Fits query.now costs.now n.value)) }
{
    let inputs = Inputs::Two(left.props(), right.props());
    let Some(props) = step_over(query, costs, &op, &inputs) else {
        return Ok(None);
    };
    let node = plan_node::binary(op, props, left.clone()?, right.clone()?);
    Ok(Some(Rc::new(alloc, node)?))
}
