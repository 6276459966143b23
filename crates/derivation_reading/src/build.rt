// Making the derivation of its nodes.
ghost use Rattle.std.specs.Prelude.{◌≡◌, ◌<◌, ◌≤◌, [], ◌∷◌, ◌++◌, length, map, IfOk};
ghost use Rattle.derivation_reading.specs.Derivations.{steps, HasInputs};
ghost use Rattle.derivation_reading.specs.Derivations as step;
ghost use Rattle.derivation_reading.specs.Nodes.{said};
ghost use Rattle.derivation_reading.specs.Places.{inputs};
ghost use Rattle.derivation_reading.specs.Preorder.{AreWhole};
ghost use Rattle.derivation_reading.specs.Piles.{Grows};

use crate::nodes::Node;
use crate::places::inputs_of;
use sqlite_items::{Boxed, Items};
use star_model::derivations::Deriv;
use star_model::rules::Flavour;
use std::alloc::{AllocError, Global};

// Takes the tree that was put down last.
fn taken(pile: &mut Items<Deriv>) -> Deriv
    requires { 0 < length pile.old }
    ensures { pile.old ≡ pile.new ++ result ∷ [] }
{
    match pile.pop() {
        Some(tree) => tree,
        None => unreachable!(),
    }
}

// An operator over the trees that were put down last, as many as it takes.
fn operator(alloc: Global, flavour: Flavour, pile: &mut Items<Deriv>) -> Result<Deriv, AllocError>
    requires { inputs (step.Operator flavour) ≤ length pile.old }
    ensures { IfOk result (λ tree. Grows (step.Operator flavour) pile.old tree pile.new) }
{
    let count = inputs_of(flavour);
    if count == 0 {
        return Ok(Deriv::Leaf { flavour });
    }
    let first = Boxed::new(alloc, taken(pile))?;
    if count == 1 {
        return Ok(Deriv::Unary {
            flavour,
            input: first,
        });
    }
    let second = Boxed::new(alloc, taken(pile))?;
    Ok(Deriv::Binary {
        flavour,
        left: first,
        right: second,
    })
}

// A node over the trees that were put down last, as many as it has inputs.
fn grown(alloc: Global, node: Node, pile: &mut Items<Deriv>) -> Result<Deriv, AllocError>
    requires { inputs (said node) ≤ length pile.old }
    ensures { IfOk result (λ tree. Grows (said node) pile.old tree pile.new) }
{
    match node {
        Node::Glue(chain) => {
            let goal = Boxed::new(alloc, taken(pile))?;
            Ok(Deriv::Glue { chain, goal })
        }
        Node::Goal(goal, split) => {
            let body = Boxed::new(alloc, taken(pile))?;
            Ok(Deriv::Goal { goal, split, body })
        }
        Node::Reference {
            star,
            alternative,
            values,
        } => {
            let body = Boxed::new(alloc, taken(pile))?;
            Ok(Deriv::Reference {
                star,
                alternative,
                values,
                body,
            })
        }
        Node::Operator(flavour) => operator(alloc, flavour, pile),
    }
}

/// The derivation that has these nodes in preorder. It goes from the last node to the first,
/// without recursion.
pub fn derivation_of(alloc: Global, nodes: Items<Node>) -> Result<Deriv, AllocError>
    requires { AreWhole (map said nodes) }
    ensures nodes { IfOk result (λ tree. steps tree ≡ map said nodes) }
    ensures inputs { IfOk result (λ tree. HasInputs tree) }
{
    let mut left = nodes;
    let mut pile = Items::new(alloc);
    'down: while let Some(node) = left.pop() {
        let tree = grown(alloc, node, &mut pile)?;
        pile.push(tree)?;
    }
    Ok(taken(&mut pile))
}
