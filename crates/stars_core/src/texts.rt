// The answers of texts that come from anywhere.
//
// These calls have no premise on where the texts come from, so they say of the bytes of real files
// what `stars` says of a shelf that tells what it holds.
ghost use Rattle.std.specs.Prelude.{[], ◌∷◌};
ghost use Rattle.stars_core.specs.Saying.{three, four};
ghost use Rattle.stars_core.specs.Judged.{AnswersOf, CaseOf};

use crate::{
    Answer, Case, Command, Refusal, TextKind, frontier_query, judge_catalogue, judge_derivation,
    judge_query, judge_rules, plan_query, print_checked, verify_query,
};
use std::alloc::Global;

// What three texts say.
fn judge_case(alloc: Global, rules: &[u8], catalogue: &[u8], query: &[u8]) -> Result<Case, Refusal>
    ensures { CaseOf rules.now catalogue.now query.now result }
{
    let rules = judge_rules(alloc, rules)?;
    let catalogue = judge_catalogue(alloc, catalogue)?;
    let query = judge_query(alloc, &catalogue, query)?;
    Ok(Case::new(rules, query))
}

/// The canonical text of a rule file, or its first fault.
pub fn check_text(alloc: Global, rules: &[u8]) -> Result<Answer, Refusal>
    ensures { AnswersOf Command.Check ((TextKind.Rules, rules.now) ∷ []) result }
{
    let rules = judge_rules(alloc, rules)?;
    let answer = print_checked(alloc, &rules)?;
    Ok(answer)
}

/// A plan of the least cost, or that there is none, or the first fault of three texts.
pub fn plan_texts(
    alloc: Global,
    rules: &[u8],
    catalogue: &[u8],
    query: &[u8],
) -> Result<Answer, Refusal>
    ensures { AnswersOf Command.Plan (three rules.now catalogue.now query.now) result }
{
    let case = judge_case(alloc, rules, catalogue, query)?;
    let answer = plan_query(alloc, &case.rules, &case.query)?;
    Ok(answer)
}

/// The frontier of the query's goal, or that there is no plan, or the first fault of three texts.
pub fn frontier_texts(
    alloc: Global,
    rules: &[u8],
    catalogue: &[u8],
    query: &[u8],
) -> Result<Answer, Refusal>
    ensures { AnswersOf Command.Frontier (three rules.now catalogue.now query.now) result }
{
    let case = judge_case(alloc, rules, catalogue, query)?;
    let answer = frontier_query(alloc, &case.rules, &case.query)?;
    Ok(answer)
}

/// The numbers of a derivation's plan, or its first invalid node, or the first fault of four texts.
pub fn verify_texts(
    alloc: Global,
    rules: &[u8],
    catalogue: &[u8],
    query: &[u8],
    derivation: &[u8],
) -> Result<Answer, Refusal>
    ensures { AnswersOf Command.Verify (four rules.now catalogue.now query.now derivation.now)
        result }
{
    let case = judge_case(alloc, rules, catalogue, query)?;
    let derivation = judge_derivation(alloc, derivation)?;
    verify_query(alloc, &case.rules, &case.query, &derivation)
}
