// Plans whose nodes are shared, each with its vector.

ghost use Rattle.std.specs.Prelude.{◌≡◌, map};
ghost use Rattle.lolepop.specs.PlanTrees.{top_op, top_vector, inputs_of, Leaf, Unary, Binary};

use star_model::plans::{Op, Props};
use std::marker::Model;
use std::rc::Rc;
use std::slice;

/// An operator over shared plans, with the vector of its result. It never changes.
#[derive(Drop)]
#[cycle(plan_node)]
pub struct PlanNode {
    op: Op,
    props: Props,
    inputs: NodeInputs,
}

#[derive(Drop)]
#[cycle(plan_node)]
enum NodeInputs {
    None,
    One(Rc<PlanNode>),
    Two([Rc<PlanNode>; 2]),
}

impl Model for PlanNode {
    ghost use Rattle.lolepop.specs.PlanTrees.{PlanTree, node_count};
    ghost use Rattle.lolepop.specs.PlanTreeCode.{tree_code};

    ghost Value = { PlanTree };

    ghost coded = { tree_code };

    ghost use Rattle.lolepop.specs.Nodes.{tree_of, HasCount};

    ghost view = { λ n. tree_of n.op n.props n.inputs };

    ghost invariant = { λ n. HasCount n.inputs };

    ghost size = { node_count };

    ghost use Rattle.std.proofs.Common.{arith};
    ghost use Rattle.lolepop.specs.NodeSizes.{inputs_are_smaller};

    ghost size_decreases = { λ n h. Prim.omega (arith, inputs_are_smaller n.op n.props n.inputs h) };
}

impl PlanNode {
    pub fn op(&self) -> &Op
        ensures { result.now ≡ top_op self.now }
    {
        &self.op
    }

    /// The vector of the result.
    pub fn props(&self) -> &Props
        ensures { result.now ≡ top_vector self.now }
    {
        &self.props
    }

    /// At most two.
    pub fn inputs(&self) -> &[Rc<PlanNode>]
        ensures { map (λ n. n.value) result.now ≡ inputs_of self.now }
    {
        match &self.inputs {
            NodeInputs::None => &[],
            NodeInputs::One(input) => slice::from_ref(input),
            NodeInputs::Two(inputs) => inputs,
        }
    }
}

pub(crate) fn leaf(op: Op, props: Props) -> PlanNode
    ensures { result ≡ Leaf op props }
{
    PlanNode {
        op,
        props,
        inputs: NodeInputs::None,
    }
}

pub(crate) fn unary(op: Op, props: Props, input: Rc<PlanNode>) -> PlanNode
    ensures { result ≡ Unary op props input.value }
{
    PlanNode {
        op,
        props,
        inputs: NodeInputs::One(input),
    }
}

pub(crate) fn binary(op: Op, props: Props, left: Rc<PlanNode>, right: Rc<PlanNode>) -> PlanNode
    ensures { result ≡ Binary op props left.value right.value }
{
    PlanNode {
        op,
        props,
        inputs: NodeInputs::Two([left, right]),
    }
}
