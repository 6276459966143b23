// A plan with the derivation that is printed.

ghost use Rattle.std.specs.Prelude.{◌≡◌, IfOk};

use crate::entry::Entry;
use crate::plan_node::PlanNode;
use star_model::derivations::Deriv;
use std::alloc::{AllocError, Global};
use std::marker::Model;
use std::rc::Rc;

/// A plan and its derivation, which shares nothing.
#[derive(Drop)]
pub struct Best {
    pub deriv: Deriv,
    pub node: Rc<PlanNode>,
}

impl Model for Best {
    ghost use Rattle.lolepop.specs.Derived.{DerivedPlan};
    ghost use Rattle.lolepop.specs.DerivedCode.{derived_code};

    ghost Value = { DerivedPlan };

    ghost coded = { derived_code };

    ghost view = { λ b. record { tree = b.node.value; deriv = b.deriv } };
}

impl Best {
    /// The same plan and derivation.
    pub fn of_entry(alloc: Global, entry: &Entry) -> Result<Best, AllocError>
        ensures { IfOk result (λ b. b ≡ entry.now) }
    {
        Ok(Best {
            deriv: entry.trace.unshare(alloc)?,
            node: entry.node.clone()?,
        })
    }
}
