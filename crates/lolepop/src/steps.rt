// The vector of an operator's result.

ghost use Rattle.std.specs.Prelude.{◌≡◌};
ghost use Rattle.star_model.specs.Operators.{step};
ghost use Rattle.star_model.specs.WellFormed.{WellFormedQuery};
ghost use Rattle.lolepop.specs.Inputs.{vectors};

use crate::applicability::{each_touches, may_apply};
use crate::inputs::Inputs;
use crate::pricing::price;
use crate::results::unpriced;
use star_model::costs::Costs;
use star_model::plans::{Op, Props};
use star_model::query::Query;

/// The vector of the operator over inputs with these vectors; none where it isn't applicable. It
/// takes no memory.
#[tactic(auto, unfolding(star_model::specs::Operators::step))]
pub fn step_over(query: &Query, costs: &Costs, op: &Op, inputs: &Inputs<'_>) -> Option<Props>
    requires { WellFormedQuery query.now }
    ensures { result ≡ step query.now costs.now op.now (vectors inputs.now) }
{
    if may_apply(query, op, inputs) && each_touches(query, op, inputs) {
        let made = unpriced(query, op, inputs);
        price(query, costs, op, inputs, made)
    } else {
        None
    }
}

/// The vector of the operator over inputs with these vectors; none where it isn't applicable, or
/// has not so many inputs. It takes no memory.
#[tactic(auto, using(crate::proofs::ArityLaws::arity_rules))]
pub fn step(query: &Query, costs: &Costs, op: &Op, inputs: &[Props]) -> Option<Props>
    requires { WellFormedQuery query.now }
    ensures { result ≡ step query.now costs.now op.now inputs.now }
{
    match inputs {
        [] => step_over(query, costs, op, &Inputs::None),
        [input] => step_over(query, costs, op, &Inputs::One(input)),
        [left, right] => step_over(query, costs, op, &Inputs::Two(left, right)),
        [_, _, _, ..] => None,
    }
}
