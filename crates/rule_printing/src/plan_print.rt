// Printing a plan.

ghost use Rattle.std.specs.Prelude.{◌≡◌, OnOk};
ghost use Rattle.rule_grammar.specs.Rules.{plan_lexemes};
ghost use Rattle.spelling.specs.Writing.{puts};
ghost use Rattle.rule_printing.specs.Printing.{further_lexemes};

use crate::value_print::{Values, print_binary};
use spelling::{Writer, print_behind, print_call};
use star_model::flavours::flavour_word;
use star_model::rules::{PlanExpr, ValueExpr};
use std::alloc::AllocError;

// Arguments that stand behind others.
#[tactic(auto, unfolding(crate::specs::Printing::further_lexemes))]
fn print_further(out: &mut Writer, args: &[ValueExpr]) -> Result<(), AllocError>
    ensures { OnOk result (out.new ≡ puts out.old (further_lexemes args.now)) }
{
    print_behind(out, &Values, b",", args)
}

/// Writes a plan within a statement: an operator's plans stand before its other arguments.
///
/// The recursion goes as deep as the plan nests.
#[tactic(auto, using(crate::proofs::PrintedPlans::plans))]
pub fn print_plan(out: &mut Writer, plan: &PlanExpr) -> Result<(), AllocError>
    ensures { OnOk result (out.new ≡ puts out.old (plan_lexemes plan.now)) }
{
    match plan {
        PlanExpr::Reference { star, args } => print_call(
            out,
            &Values,
            star.as_slice(),
            args.as_slice(),
        ),
        PlanExpr::Glue { stream, preds } => print_binary(out, b"Glue", stream, preds),
        PlanExpr::Leaf { flavour, args } => {
            print_call(
                out,
                &Values,
                flavour_word(*flavour).as_bytes(),
                args.as_slice(),
            )
        }
        PlanExpr::Unary {
            flavour,
            args,
            input,
        } => {
            out.word(flavour_word(*flavour).as_bytes())?;
            out.symbol(b"(")?;
            print_plan(out, input.get())?;
            print_further(out, args.as_slice())?;
            out.symbol(b")")
        }
        PlanExpr::Binary {
            flavour,
            args,
            left,
            right,
        } => {
            out.word(flavour_word(*flavour).as_bytes())?;
            out.symbol(b"(")?;
            print_plan(out, left.get())?;
            out.symbol(b",")?;
            print_plan(out, right.get())?;
            print_further(out, args.as_slice())?;
            out.symbol(b")")
        }
    }
}
