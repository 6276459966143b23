// Making plans of their parts.
ghost use Rattle.std.specs.Prelude.{◌≡◌};
ghost use Rattle.star_model.specs.PlanExprCases.{Unary, Binary};

use sqlite_items::Boxed;
use star_model::lists::List;
use star_model::rules::{Flavour, PlanExpr, ValueExpr};

pub fn unary_plan(flavour: Flavour, args: List<ValueExpr>, input: Boxed<PlanExpr>) -> PlanExpr
    ensures { result ≡ Unary flavour args input }
{
    PlanExpr::Unary {
        flavour,
        args,
        input,
    }
}

pub fn binary_plan(
    flavour: Flavour,
    args: List<ValueExpr>,
    left: Boxed<PlanExpr>,
    right: Boxed<PlanExpr>,
) -> PlanExpr
    ensures { result ≡ Binary flavour args left right }
{
    PlanExpr::Binary {
        flavour,
        args,
        left,
        right,
    }
}
