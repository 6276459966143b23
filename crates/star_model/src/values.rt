// The values of the rule language.

ghost use Rattle.std.specs.Prelude.{◌≡◌};
ghost use Rattle.star_model.specs.declared.values.RuleValue.TheVariants as is;

use crate::columns::{ColList, Site};
use crate::plans::Require;
use crate::sets::{PredSet, QuantSet};

/// A nonempty set of quantifiers, and what is required of its plans.
#[derive(Drop)]
pub struct StreamValue {
    pub tables: QuantSet,
    pub require: Require,
}

/// What an expression of the rule language stands for, one variant for each kind.
#[derive(Drop)]
pub enum RuleValue {
    Stream(StreamValue),
    Quants(QuantSet),
    Preds(PredSet),
    Cols(ColList),
    Site(Site),
    /// The position of an index in the catalogue.
    Index(u8),
}

/// The empty set of quantifiers, which an unbound name stands for.
impl Default for RuleValue {
    ghost is_default = { λ v. v ≡ is.Quants 0 };

    fn default() -> RuleValue {
        RuleValue::Quants(QuantSet::empty())
    }
}
