// A set of plans with several owners.

ghost use Rattle.std.specs.Prelude.{◌≡◌, IfOk};

use dominance_prune::PlanSet;
use lolepop::Entry;
use std::alloc::{AllocError, Global};
use std::marker::Model;
use std::rc::Rc;

/// A set of plans that no longer changes.
#[derive(Drop)]
pub struct SharedSet {
    plans: Rc<PlanSet<Entry>>,
}

impl Model for SharedSet {
    ghost use Rattle.std.specs.Prelude.{List};
    ghost use Rattle.std.specs.Coded.{coded_list};
    ghost use Rattle.lolepop.specs.Derived.{DerivedPlan};
    ghost use Rattle.lolepop.specs.DerivedCode.{derived_code};

    ghost Value = { List DerivedPlan };

    ghost coded = { coded_list derived_code };

    ghost view = { λ s. s.plans.value };
}

impl Clone for SharedSet {
    ghost is_clone = { λ s copy. copy ≡ s };

    /// The same set. Its members aren't copied.
    fn clone(&self) -> Result<SharedSet, AllocError> {
        Ok(SharedSet {
            plans: self.plans.clone()?,
        })
    }
}

impl SharedSet {
    pub fn new(alloc: Global, plans: PlanSet<Entry>) -> Result<SharedSet, AllocError>
        ensures { IfOk result (λ set. set ≡ plans) }
    {
        Ok(SharedSet {
            plans: Rc::new(alloc, plans)?,
        })
    }

    pub fn get(&self) -> &PlanSet<Entry>
        ensures { result.now ≡ self.now }
    {
        &self.plans
    }
}
