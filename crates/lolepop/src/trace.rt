// Derivations whose parts are shared.

ghost use Rattle.std.specs.Prelude.{◌≡◌, IfOk};
ghost use Rattle.lolepop.specs.Traces.{deriv_of};

use sqlite_items::Boxed;
use star_model::derivations::{Deriv, ForAllValues};
use star_model::lists::Name;
use star_model::plans::{Chain, Goal};
use star_model::rules::Flavour;
use star_model::sets::QuantSet;
use std::alloc::{AllocError, Global};
use std::rc::Rc;

/// A derivation whose parts are shared: the variants are those of `Deriv`.
#[derive(Drop)]
pub enum Trace {
    Glue {
        chain: Chain,
        goal: Rc<Trace>,
    },
    Goal {
        goal: Goal,
        split: Option<(QuantSet, QuantSet)>,
        body: Rc<Trace>,
    },
    Reference {
        star: Name,
        alternative: u32,
        values: ForAllValues,
        body: Rc<Trace>,
    },
    Leaf {
        flavour: Flavour,
    },
    Unary {
        flavour: Flavour,
        input: Rc<Trace>,
    },
    Binary {
        flavour: Flavour,
        left: Rc<Trace>,
        right: Rc<Trace>,
    },
}

impl Trace {
    /// The derivation that the trace stands for. A part that is shared is copied each time that it
    /// stands there.
    #[cycle(unshare)]
    pub fn unshare(&self, alloc: Global) -> Result<Deriv, AllocError>
        ensures { IfOk result (λ d. d ≡ deriv_of self.now) }
    {
        match self {
            Trace::Glue { chain, goal } => Ok(Deriv::Glue {
                chain: chain.copied(),
                goal: boxed(alloc, goal)?,
            }),
            Trace::Goal { goal, split, body } => Ok(Deriv::Goal {
                goal: *goal,
                split: *split,
                body: boxed(alloc, body)?,
            }),
            Trace::Reference {
                star,
                alternative,
                values,
                body,
            } => Ok(Deriv::Reference {
                star: star.copy(alloc)?,
                alternative: *alternative,
                values: values.copied(),
                body: boxed(alloc, body)?,
            }),
            Trace::Leaf { flavour } => Ok(Deriv::Leaf { flavour: *flavour }),
            Trace::Unary { flavour, input } => Ok(Deriv::Unary {
                flavour: *flavour,
                input: boxed(alloc, input)?,
            }),
            Trace::Binary {
                flavour,
                left,
                right,
            } => Ok(Deriv::Binary {
                flavour: *flavour,
                left: boxed(alloc, left)?,
                right: boxed(alloc, right)?,
            }),
        }
    }
}

#[cycle(unshare)]
fn boxed(alloc: Global, part: &Rc<Trace>) -> Result<Boxed<Deriv>, AllocError>
    ensures { IfOk result (λ d. d ≡ deriv_of part.now.value) }
{
    Boxed::new(alloc, part.unshare(alloc)?)
}
