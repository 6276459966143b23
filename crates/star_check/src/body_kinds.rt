// The kinds of the values in bodies.
ghost use Rattle.std.specs.Prelude.{◌≡◌, ◌&&◌, [], map};
ghost use Rattle.star_model.specs.Stars.{star_named};
ghost use Rattle.star_model.specs.Kinds.{argument_kinds, have_kinds};
ghost use Rattle.star_model.specs.Accepted.{body_has_kinds};
ghost use Rattle.star_model.specs.declared.rules.Kind.TheVariants as kind;
ghost use Rattle.star_check.specs.KindTests.{reference_has_kinds};

use crate::kinds::{argument_kinds, has_kind, have_kinds};
use crate::names::star_named;
use star_model::lists::Name;
use star_model::rules::{Flavour, Kind, Param, PlanExpr, RuleFile, ValueExpr};

// Whether each value that has a parameter has its kind.
fn have_parameter_kinds(kinds: &[Kind], params: &[Param], values: &[ValueExpr]) -> bool
    ensures { result ≡ have_kinds kinds.now (map (λ p. p.kind) params.now) values.now }
{
    match params {
        [] => true,
        [param, params @ ..] => match values {
            [] => true,
            [value, values @ ..] => {
                has_kind(kinds, param.kind, value) && have_parameter_kinds(kinds, params, values)
            }
        },
    }
}

fn reference_has_kinds(rules: &RuleFile, kinds: &[Kind], star: &Name, args: &[ValueExpr]) -> bool
    ensures { result ≡ reference_has_kinds rules.now kinds.now star.now args.now }
{
    match star_named(rules, star) {
        None => true,
        Some(star) => have_parameter_kinds(kinds, star.params.as_slice(), args),
    }
}

fn operator_has_kinds(kinds: &[Kind], flavour: Flavour, args: &[ValueExpr]) -> bool
    ensures { result ≡ have_kinds kinds.now (argument_kinds flavour) args.now }
{
    have_kinds(kinds, argument_kinds(flavour), args)
}

/// Whether the values of the body have the kinds that their places ask, where the names have these
/// kinds.
#[tactic(auto, using(crate::proofs::BodyKinds::bodies))]
pub fn body_has_kinds(rules: &RuleFile, kinds: &[Kind], plan: &PlanExpr) -> bool
    ensures { result ≡ body_has_kinds rules.now kinds.now plan.now }
{
    match plan {
        PlanExpr::Reference { star, args } => {
            reference_has_kinds(rules, kinds, star, args.as_slice())
        }
        PlanExpr::Glue { stream, preds } => {
            has_kind(kinds, Kind::Stream, stream) && has_kind(kinds, Kind::Preds, preds)
        }
        PlanExpr::Leaf { flavour, args } => operator_has_kinds(kinds, *flavour, args.as_slice()),
        PlanExpr::Unary {
            flavour,
            args,
            input,
        } => {
            operator_has_kinds(kinds, *flavour, args.as_slice())
                && body_has_kinds(rules, kinds, input.get())
        }
        PlanExpr::Binary {
            flavour,
            args,
            left,
            right,
        } => {
            operator_has_kinds(kinds, *flavour, args.as_slice())
                && body_has_kinds(rules, kinds, left.get())
                && body_has_kinds(rules, kinds, right.get())
        }
    }
}
