// Operators that are used and lack a formula.
ghost use Rattle.std.specs.Prelude.{◌≡◌, ◌&&◌, ◌||◌, not};
ghost use Rattle.std.specs.List.{list_any, find};
ghost use Rattle.star_model.specs.Costs.{flavours, same_flavour, same_which};
ghost use Rattle.star_model.specs.Accepted.{operators_in, is_used, lacks_formula};
ghost use Rattle.star_model.specs.declared.rules.Which.TheVariants as which;
ghost use Rattle.star_check.specs.FileFaults.{is_of_glue, IsMissingFormula};

use star_model::flavours::FLAVOURS;
use star_model::rules::{Alternative, Flavour, FormulaDef, PlanExpr, RuleFile, StarDef, Which};

fn same_flavour(left: Flavour, right: Flavour) -> bool
    ensures { result ≡ same_flavour left right }
{
    left == right
}

fn same_which(left: Which, right: Which) -> bool
    ensures { result ≡ same_which left right }
{
    left == right
}

// Whether the body has the operator.
#[tactic(auto, using(crate::proofs::Walks::walks, star_model::specs::AcceptedEquations::operators_in_cases))]
fn body_uses(flavour: Flavour, plan: &PlanExpr) -> bool
    ensures { result ≡ list_any (λ o. same_flavour flavour o.0) (operators_in plan.now) }
{
    match plan {
        PlanExpr::Reference { star: _, args: _ } => false,
        PlanExpr::Glue {
            stream: _,
            preds: _,
        } => false,
        PlanExpr::Leaf {
            flavour: own,
            args: _,
        } => same_flavour(flavour, *own),
        PlanExpr::Unary {
            flavour: own,
            args: _,
            input,
        } => same_flavour(flavour, *own) || body_uses(flavour, input.get()),
        PlanExpr::Binary {
            flavour: own,
            args: _,
            left,
            right,
        } => {
            same_flavour(flavour, *own)
                || (body_uses(flavour, left.get()) || body_uses(flavour, right.get()))
        }
    }
}

fn alternatives_use(flavour: Flavour, alternatives: &[Alternative]) -> bool
    ensures { result ≡ list_any (λ a. list_any (λ o. same_flavour flavour o.0)
        (operators_in a.body)) alternatives.now }
{
    alternatives
        .iter()
        .any(|alternative| body_uses(flavour, &alternative.body))
}

fn stars_use(flavour: Flavour, stars: &[StarDef]) -> bool
    ensures { result ≡ list_any (λ s. list_any
        (λ a. list_any (λ o. same_flavour flavour o.0) (operators_in a.body)) s.alternatives)
        stars.now }
{
    stars.iter().any(|star| alternatives_use(flavour, star.alternatives.as_slice()))
}

// Whether Glue may use the operator.
fn is_of_glue(flavour: Flavour) -> bool
    ensures { result ≡ is_of_glue flavour }
{
    match flavour {
        Flavour::Sort | Flavour::Store | Flavour::Ship => true,
        Flavour::AccessHeap
        | Flavour::AccessIndex
        | Flavour::Get
        | Flavour::Filter
        | Flavour::Probe
        | Flavour::JoinNl
        | Flavour::JoinMerge
        | Flavour::JoinHash
        | Flavour::Intersect => false,
    }
}

#[tactic(auto, using(crate::proofs::Formulas::used))]
fn is_used(rules: &RuleFile, flavour: Flavour) -> bool
    ensures { result ≡ is_used rules.now flavour }
{
    is_of_glue(flavour) || stars_use(flavour, rules.stars.as_slice())
}

fn has_formula(formulas: &[FormulaDef], flavour: Flavour, which: Which) -> bool
    ensures { result ≡ list_any (λ d. same_flavour d.flavour flavour && same_which d.which which)
        formulas.now }
{
    formulas.iter().any(|definition| {
        same_flavour(definition.flavour, flavour) && same_which(definition.which, which)
    })
}

fn lacks_one(formulas: &[FormulaDef], flavour: Flavour) -> bool
    ensures { result ≡ (not (list_any (λ d. same_flavour d.flavour flavour
        && same_which d.which which.Cost) formulas.now)
        || not (list_any (λ d. same_flavour d.flavour flavour && same_which d.which which.Rescan)
        formulas.now)) }
{
    !has_formula(formulas, flavour, Which::Cost) || !has_formula(formulas, flavour, Which::Rescan)
}

#[tactic(auto, using(crate::proofs::Formulas::lacking))]
fn lacks_formula(rules: &RuleFile, flavour: Flavour) -> bool
    ensures { result ≡ lacks_formula rules.now flavour }
{
    is_used(rules, flavour) && lacks_one(rules.formulas.as_slice(), flavour)
}

fn first_lacking(rules: &RuleFile) -> Option<Flavour>
    ensures { result ≡ find (lacks_formula rules.now) flavours }
{
    FLAVOURS
        .iter()
        .copied()
        .find(|flavour| lacks_formula(rules, *flavour))
}

/// The first operator, in the order of their table, that is used and lacks a formula.
#[tactic(auto, using(crate::proofs::Formulas::missing))]
pub fn missing_formula(rules: &RuleFile) -> Option<Flavour>
    ensures { IsMissingFormula rules.now result }
{
    first_lacking(rules)
}
