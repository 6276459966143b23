// What a statement says of its node.

use star_model::derivations::ForAllValues;
use star_model::lists::Name;
use star_model::plans::{Chain, Goal};
use star_model::rules::Flavour;
use star_model::sets::QuantSet;

/// What a statement says of its node, without the nodes below it.
#[derive(Drop)]
pub enum Node {
    Glue(Chain),
    Goal(Goal, Option<(QuantSet, QuantSet)>),
    Reference {
        star: Name,
        alternative: u32,
        values: ForAllValues,
    },
    Operator(Flavour),
}
