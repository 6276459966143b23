// What the arguments of an operator say.

ghost use Rattle.std.specs.Prelude.{◌≡◌};
ghost use Rattle.star_model.specs.Operators.{applied, flavour_of};

use star_model::plans::Op;
use star_model::rules::Flavour;
use star_model::sets::PredSet;

pub fn flavour_of(op: &Op) -> Flavour
    ensures { result ≡ flavour_of op.now }
{
    match op {
        Op::AccessHeap { .. } => Flavour::AccessHeap,
        Op::AccessIndex { .. } => Flavour::AccessIndex,
        Op::Get { .. } => Flavour::Get,
        Op::Filter { .. } => Flavour::Filter,
        Op::Sort { .. } => Flavour::Sort,
        Op::Store { .. } => Flavour::Store,
        Op::Ship { .. } => Flavour::Ship,
        Op::Probe { .. } => Flavour::Probe,
        Op::JoinNl { .. } => Flavour::JoinNl,
        Op::JoinMerge { .. } => Flavour::JoinMerge,
        Op::JoinHash { .. } => Flavour::JoinHash,
        Op::Intersect => Flavour::Intersect,
    }
}

/// The predicates that the operator applies.
pub fn applied(op: &Op) -> PredSet
    ensures { result ≡ applied op.now }
{
    match op {
        Op::AccessHeap { preds, .. }
        | Op::AccessIndex { preds, .. }
        | Op::Get { preds, .. }
        | Op::Filter { preds }
        | Op::Probe { preds, .. }
        | Op::JoinNl { preds } => *preds,
        Op::JoinMerge { merge, preds } | Op::JoinHash { merge, preds } => merge.union(*preds),
        Op::Sort { .. } | Op::Store { .. } | Op::Ship { .. } | Op::Intersect => PredSet::empty(),
    }
}
