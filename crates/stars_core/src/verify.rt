// The judgement of a derivation that anyone may have written.
ghost use Rattle.std.specs.Prelude.{◌≡◌, ◌<◌, ◌^◌, IfOk, string_bytes};
ghost use Rattle.star_model.specs.Judging.{node_count};
ghost use Rattle.star_model.specs.WellFormed.{WellFormedQuery};
ghost use Rattle.stars_core.specs.Verified.{Verified, Denies, derived_line};
ghost use Rattle.stars_core.specs.Lines.{not_derived_line};
ghost use Rattle.stars_core.specs.declared.status.Ending.TheVariants.{Done};

use crate::lines::not_derived_line;
use crate::plan::numbers;
use crate::{Answer, Ending, Refusal};
use plan_check::check_derivation;
use star_check::CheckedRules;
use star_model::derivations::Deriv;
use star_model::plans::Props;
use star_model::query::Query;
use std::alloc::{AllocError, Global};

fn derived_line(alloc: Global, props: &Props) -> Result<String, AllocError>
    ensures { IfOk result (λ line. string_bytes line ≡ derived_line props.now) }
{
    let text = numbers(alloc, props)?;
    let numbers = text.as_str();
    format!(in alloc; "derived{numbers}\n")
}

fn verified(alloc: Global, props: &Props) -> Result<Answer, AllocError>
    ensures { IfOk result (λ answer. (answer.ending ≡ Done)
        × (answer.text.items ≡ derived_line props.now)) }
{
    let line = derived_line(alloc, props)?;
    Ok(Answer {
        ending: Ending::Done,
        text: line.into_bytes(),
    })
}

fn denied(alloc: Global, node: u32) -> Refusal
    ensures { Denies (λ line. line ≡ not_derived_line node) result }
{
    match not_derived_line(alloc, node) {
        Ok(line) => Refusal::NotDerived(line),
        Err(AllocError) => Refusal::Memory,
    }
}

/// The numbers of a derivation's plan, or its first invalid node where it isn't one of the query by
/// the rules.
///
/// Nothing is searched: the derivation is judged node by node.
pub fn verify_query(
    alloc: Global,
    rules: &CheckedRules,
    query: &Query,
    derivation: &Deriv,
) -> Result<Answer, Refusal>
    requires query { WellFormedQuery query.now }
    requires size { node_count derivation.now < 2 ^ 32 }
    ensures { Verified rules.now query.now derivation.now result }
{
    match check_derivation(rules, query, derivation) {
        Ok(props) => Ok(verified(alloc, &props)?),
        Err(invalid) => Err(denied(alloc, invalid.node)),
    }
}
