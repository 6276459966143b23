// The nodes below a node, for walks over plans.

ghost use Rattle.std.specs.Prelude.{◌≡◌};
ghost use Rattle.lolepop.specs.PlanTrees.{inputs_of};
ghost use Rattle.lolepop.specs.Below.{nodes_in};

use crate::plan_node::PlanNode;

/// The inputs of a node, the left one first.
#[derive(Clone, Copy)]
pub enum Below<'a> {
    None,
    One(&'a PlanNode),
    Two(&'a PlanNode, &'a PlanNode),
}

/// The nodes below a node. It takes no memory.
pub fn nodes_below(node: &PlanNode) -> Below<'_>
    ensures { nodes_in result ≡ inputs_of node.now }
{
    match node.inputs() {
        [] => Below::None,
        [input] => Below::One(input),
        [left, right] => Below::Two(left, right),
        [_, _, ..] => unreachable!(),
    }
}
