// The text of a least plan.
ghost use Rattle.std.specs.Prelude.{◌≡◌, IfOk, string_bytes};
ghost use Rattle.star_model.specs.WellFormed.{WellFormedQuery};
ghost use Rattle.lolepop.specs.Derived.{vector_of};
ghost use Rattle.derivation_reading.specs.Derivations.{canonical};
ghost use Rattle.spelling.specs.Layout.{commented};
ghost use Rattle.stars_core.specs.Plan.{PlanText, IsFound, AreSmall, numbers, no_plan};
ghost use Rattle.stars_core.specs.declared.status.Ending.TheVariants.{Done, NoPlan};

use crate::{Answer, Ending};
use derivation_print::print_derivation;
use lolepop::Best;
use star_check::CheckedRules;
use star_expand::best;
use star_model::plans::Props;
use star_model::query::Query;
use std::alloc::{AllocError, Global};

// The cost, the rescan cost and the cardinality of a plan, as they stand in a line.
pub fn numbers(alloc: Global, props: &Props) -> Result<String, AllocError>
    ensures { IfOk result (λ text. string_bytes text ≡ numbers props.now) }
{
    let cost = props.cost.get();
    let rescan = props.rescan.get();
    let card = props.card.get();
    let mut text = format!(in alloc; " cost {cost}")?;
    let rescan = format!(in alloc; " rescan {rescan}")?;
    let card = format!(in alloc; " card {card}")?;
    text.push_str(rescan.as_str())?;
    text.push_str(card.as_str())?;
    Ok(text)
}

// What the numbers of each plan keep.
#[tactic(auto, using(crate::proofs::PlanTexts::are_small))]
fn stands(plan: &Best)
    ensures { AreSmall (vector_of plan.now) }
{
    let props = plan.node.props();
    let _ = props.cost.get();
    let _ = props.rescan.get();
    let _ = props.card.get();
}

// The numbers of a plan in a comment, and its derivation.
pub fn plan_text(alloc: Global, plan: &Best) -> Result<Vec<u8>, AllocError>
    ensures { IfOk result (λ text. text.items
        ≡ commented (numbers (vector_of plan.now)) (canonical plan.now.deriv)) }
{
    let numbers = numbers(alloc, plan.node.props())?;
    let derivation = print_derivation(alloc, &plan.deriv)?;
    let mut text = Vec::new(alloc);
    text.extend_from_slice(b"#")?;
    text.extend_from_slice(numbers.as_bytes())?;
    text.extend_from_slice(b"\n")?;
    text.extend_from_slice(derivation.as_slice())?;
    Ok(text)
}

/// The answer where the rules derive no plan.
pub fn unplanned(alloc: Global) -> Result<Answer, AllocError>
    ensures { IfOk result (λ answer. (answer.ending ≡ NoPlan) × (answer.text.items ≡ no_plan)) }
{
    let line = format!(in alloc; "no plan\n")?;
    Ok(Answer {
        ending: Ending::NoPlan,
        text: line.into_bytes(),
    })
}

/// A plan of least cost, if the rules derive one.
pub fn find_plan(
    alloc: Global,
    rules: &CheckedRules,
    query: &Query,
) -> Result<Option<Best>, AllocError>
    requires { WellFormedQuery query.now }
    ensures { IfOk result (IsFound rules.now query.now) }
{
    match best(alloc, rules, query)? {
        Some(plan) => {
            stands(&plan);
            Ok(Some(plan))
        }
        None => Ok(None),
    }
}

/// How planning of a query by rules ends, and the text that tells it.
pub fn plan_query(alloc: Global, rules: &CheckedRules, query: &Query) -> Result<Answer, AllocError>
    requires { WellFormedQuery query.now }
    ensures { IfOk result (λ answer. PlanText rules.now query.now answer.ending answer.text.items) }
{
    let Some(plan) = find_plan(alloc, rules, query)? else {
        return unplanned(alloc);
    };
    let text = plan_text(alloc, &plan)?;
    Ok(Answer {
        ending: Ending::Done,
        text,
    })
}
