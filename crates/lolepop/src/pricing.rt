// The two costs of an operator's result.

ghost use Rattle.std.specs.Prelude.{◌≡◌};
ghost use Rattle.star_model.specs.Formulas.{value};
ghost use Rattle.star_model.specs.Operators.{cols_after, price, vars_of};
ghost use Rattle.lolepop.specs.Inputs.{vectors};

use crate::arguments::flavour_of;
use crate::inputs::Inputs;
use crate::variables::{vars_but_widths, vars_of};
use crate::width_names::lacks_width;
use formula_value::eval;
use star_model::costs::Costs;
use star_model::formula::Formula;
use star_model::num::Num;
use star_model::plans::{Op, Props};
use star_model::query::Query;
use star_model::rules::Which;

// An operator's two costs.
#[derive(Clone, Copy)]
struct TwoCosts {
    cost: Num,
    rescan: Num,
}

// The values of the operator's formulas. Widths, which take long to sum up, are summed up where one
// of the two names one.
fn costs_of(
    query: &Query,
    op: &Op,
    inputs: &Inputs<'_>,
    made: &Props,
    cost: &Formula,
    rescan: &Formula,
) -> TwoCosts
    requires { made.now.cols ≡ cols_after query.now op.now (vectors inputs.now) }
    ensures cost { result.cost ≡ value cost.now
        (vars_of query.now op.now (vectors inputs.now) made.now) }
    ensures rescan { result.rescan ≡ value rescan.now
        (vars_of query.now op.now (vectors inputs.now) made.now) }
{
    if lacks_width(cost) && lacks_width(rescan) {
        let vars = vars_but_widths(query, op, inputs, made);
        TwoCosts {
            cost: eval(cost, &vars),
            rescan: eval(rescan, &vars),
        }
    } else {
        let vars = vars_of(query, op, inputs, made);
        TwoCosts {
            cost: eval(cost, &vars),
            rescan: eval(rescan, &vars),
        }
    }
}

/// The vector with the operator's two costs; none where one of its formulas is missing.
pub fn price(
    query: &Query,
    costs: &Costs,
    op: &Op,
    inputs: &Inputs<'_>,
    made: Props,
) -> Option<Props>
    requires { made.cols ≡ cols_after query.now op.now (vectors inputs.now) }
    ensures { result ≡ price costs.now op.now (vars_of query.now op.now (vectors inputs.now) made)
        made }
{
    let flavour = flavour_of(op);
    let cost = costs.formula(flavour, Which::Cost)?;
    let rescan = costs.formula(flavour, Which::Rescan)?;
    let both = costs_of(query, op, inputs, &made, cost, rescan);
    Some(Props {
        cost: both.cost,
        rescan: both.rescan,
        ..made
    })
}
