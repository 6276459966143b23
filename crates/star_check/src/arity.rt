// References with a wrong count of arguments, and roots with a wrong count of parameters.
ghost use Rattle.std.specs.Prelude.{◌≡◌, nat_eq, not, length};
ghost use Rattle.std.specs.List.{list_any};
ghost use Rattle.star_model.specs.Accepted.{references_in, count_of_parameters, is_access_root, is_join_root, has_wrong_arity};
ghost use Rattle.star_check.specs.FirstStatements.{first_star};

use crate::names::{is_access_root, is_join_root, star_named};
use star_model::lists::Name;
use star_model::rules::{Alternative, PlanExpr, RuleFile, StarDef};

fn count_of_parameters(rules: &RuleFile, name: &Name) -> usize
    ensures { result ≡ count_of_parameters rules.now name.now }
{
    match star_named(rules, name) {
        Some(star) => star.params.len(),
        None => 0,
    }
}

// Whether a reference of the body has another count of arguments than its STAR has parameters.
#[tactic(auto, using(crate::proofs::Walks::walks, star_model::specs::AcceptedEquations::references_in_cases))]
fn refers_wrongly(rules: &RuleFile, plan: &PlanExpr) -> bool
    ensures { result ≡ list_any (λ r. not (nat_eq (length r.1) (count_of_parameters rules.now r.0)))
        (references_in plan.now) }
{
    match plan {
        PlanExpr::Reference { star, args } => args.len() != count_of_parameters(rules, star),
        PlanExpr::Glue {
            stream: _,
            preds: _,
        } => false,
        PlanExpr::Leaf {
            flavour: _,
            args: _,
        } => false,
        PlanExpr::Unary {
            flavour: _,
            args: _,
            input,
        } => refers_wrongly(rules, input.get()),
        PlanExpr::Binary {
            flavour: _,
            args: _,
            left,
            right,
        } => refers_wrongly(rules, left.get()) || refers_wrongly(rules, right.get()),
    }
}

fn refer_wrongly(rules: &RuleFile, alternatives: &[Alternative]) -> bool
    ensures { result ≡ list_any (λ a. list_any
        (λ r. not (nat_eq (length r.1) (count_of_parameters rules.now r.0))) (references_in a.body))
        alternatives.now }
{
    alternatives
        .iter()
        .any(|alternative| refers_wrongly(rules, &alternative.body))
}

#[tactic(auto, using(crate::proofs::Walks::any_in_bodies))]
fn has_wrong_arity(rules: &RuleFile, star: &StarDef) -> bool
    ensures { result ≡ has_wrong_arity rules.now star.now }
{
    refer_wrongly(rules, star.alternatives.as_slice())
        || (is_access_root(star) && star.params.len() != 2)
        || (is_join_root(star) && star.params.len() != 3)
}

/// The first statement with a wrong count of arguments or parameters.
pub fn first_wrong_arity(rules: &RuleFile) -> Option<u32>
    ensures { result ≡ first_star (has_wrong_arity rules.now) rules.now.stars }
{
    rules
        .stars
        .as_slice()
        .iter()
        .filter(|star| has_wrong_arity(rules, star))
        .map(|star| star.statement)
        .min()
}
