// Which node may stand next.
ghost use Rattle.std.specs.Prelude.{◌≡◌, ◌+◌, ◌-◌, ◌<◌, ◌^◌};
ghost use Rattle.star_model.specs.Kinds.{inputs_of};
ghost use Rattle.derivation_reading.specs.Nodes.{said};
ghost use Rattle.derivation_reading.specs.declared.places.Awaited.TheVariants as Awaited;
ghost use Rattle.derivation_reading.specs.Places.{inputs};
ghost use Rattle.derivation_reading.specs.PlaceTests.{admits, awaited_behind, takes};

use crate::nodes::Node;
use star_model::rules::Flavour;

/// How many plans an operator takes.
pub fn inputs_of(flavour: Flavour) -> u32
    ensures { result ≡ inputs_of flavour }
{
    match flavour {
        Flavour::AccessHeap => 0,
        Flavour::AccessIndex => 0,
        Flavour::Get => 1,
        Flavour::Filter => 1,
        Flavour::Sort => 1,
        Flavour::Store => 1,
        Flavour::Ship => 1,
        Flavour::Probe => 1,
        Flavour::JoinNl => 2,
        Flavour::JoinMerge => 2,
        Flavour::JoinHash => 2,
        Flavour::Intersect => 2,
    }
}

/// How many nodes stand right below a node: at most 2.
pub fn inputs(node: &Node) -> u32
    ensures { result ≡ inputs (said node.now) }
{
    match node {
        Node::Glue(_) => 1,
        Node::Goal(_, _) => 1,
        Node::Reference { .. } => 1,
        Node::Operator(flavour) => inputs_of(*flavour),
    }
}

/// Which nodes may stand next.
#[derive(Clone, Copy, Debug)]
pub enum Awaited {
    /// A Glue node: the first.
    Glue,
    /// A goal: behind a Glue node.
    Goal,
    /// Any node but a goal.
    Other,
}

impl Awaited {
    /// Those that may stand behind this node.
    pub fn behind(node: &Node) -> Awaited
        ensures { result ≡ awaited_behind (said node.now) }
    {
        match node {
            Node::Glue(_) => Awaited::Goal,
            Node::Goal(_, _) => Awaited::Other,
            Node::Reference { .. } => Awaited::Other,
            Node::Operator(_) => Awaited::Other,
        }
    }

    /// Whether this node is one of them.
    pub fn admits(self, node: &Node) -> bool
        ensures { result ≡ admits self (said node.now) }
    {
        match node {
            Node::Glue(_) => match self {
                Awaited::Glue => true,
                Awaited::Goal => false,
                Awaited::Other => true,
            },
            Node::Goal(_, _) => match self {
                Awaited::Glue => false,
                Awaited::Goal => true,
                Awaited::Other => false,
            },
            Node::Reference { .. } => match self {
                Awaited::Glue => false,
                Awaited::Goal => false,
                Awaited::Other => true,
            },
            Node::Operator(_) => match self {
                Awaited::Glue => false,
                Awaited::Goal => false,
                Awaited::Other => true,
            },
        }
    }
}

/// The places of a derivation that are read so far in preorder.
#[derive(Clone, Copy, Debug)]
pub struct Places {
    /// How many are left to fill.
    pub left: u32,
    /// What may fill the next.
    pub awaited: Awaited,
}

impl Places {
    /// Those of a whole derivation, of which nothing is read: one.
    pub fn whole() -> Places
        ensures left { result.left ≡ 1 }
        ensures awaited { result.awaited ≡ Awaited.Glue }
    {
        Places {
            left: 1,
            awaited: Awaited::Glue,
        }
    }

    /// Whether a place is left that this node may fill.
    pub fn takes(self, node: &Node) -> bool
        ensures { result ≡ takes self.left self.awaited (said node.now) }
    {
        0 < self.left && self.awaited.admits(node)
    }

    /// Those behind this node, which fills one and adds one for each of its inputs.
    pub fn behind(self, node: &Node) -> Places
        requires some { 0 < self.left }
        requires room { self.left < 2 ^ 31 }
        ensures left { result.left ≡ self.left - 1 + inputs (said node.now) }
        ensures awaited { result.awaited ≡ awaited_behind (said node.now) }
    {
        Places {
            left: self.left - 1 + inputs(node),
            awaited: Awaited::behind(node),
        }
    }
}
