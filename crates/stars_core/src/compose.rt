// What the commands put out.
ghost use Rattle.std.specs.Prelude.{[], ◌∷◌};
ghost use Rattle.stars_core.specs.CommandLine.{bytes_of, command_of, three_requests, four_requests};
ghost use Rattle.sb_outside.specs.Shelf.{GoesBy};
ghost use Rattle.workload_gen.specs.Workloads.{IsSize};
ghost use Rattle.stars_core.specs.Composing.{Composed, Ran, AllRan};
ghost use Rattle.stars_core.specs.Running.{FewCalls};

use crate::command::{find_command, word_at};
use crate::running::run_case;
use crate::taking::{take_case, take_derivation, take_rules};
use crate::{
    Command, Pieces, Refusal, TextKind, frontier_query, generate, plan_query, print_checked,
    verify_query,
};
use sb_outside::Shelf;
use std::alloc::Global;

fn check<S: Shelf>(alloc: Global, shelf: &mut S, rules: &str) -> Result<Pieces, Refusal>
    ensures goes { GoesBy 1 (S.state shelf.old) (S.state shelf.new) }
    ensures ran { Ran Command.Check (S.state shelf.old) (S.state shelf.new)
        ((TextKind.Rules, rules.now) ∷ []) result }
{
    let rules = take_rules(alloc, shelf, rules)?;
    let answer = print_checked(alloc, &rules)?;
    Ok(Pieces::of(answer))
}

fn plan<S: Shelf>(
    alloc: Global,
    shelf: &mut S,
    rules: &str,
    catalogue: &str,
    query: &str,
) -> Result<Pieces, Refusal>
    ensures goes { GoesBy 3 (S.state shelf.old) (S.state shelf.new) }
    ensures ran { Ran Command.Plan (S.state shelf.old) (S.state shelf.new)
        (three_requests rules.now catalogue.now query.now) result }
{
    let case = take_case(alloc, shelf, rules, catalogue, query)?;
    let answer = plan_query(alloc, &case.rules, &case.query)?;
    Ok(Pieces::of(answer))
}

fn run<S: Shelf>(
    alloc: Global,
    shelf: &mut S,
    rules: &str,
    catalogue: &str,
    query: &str,
) -> Result<Pieces, Refusal>
    ensures goes { GoesBy 15 (S.state shelf.old) (S.state shelf.new) }
    ensures few { FewCalls Command.Run (S.state shelf.old) (S.state shelf.new)
        (three_requests rules.now catalogue.now query.now) }
    ensures ran { Ran Command.Run (S.state shelf.old) (S.state shelf.new)
        (three_requests rules.now catalogue.now query.now) result }
{
    let case = take_case(alloc, shelf, rules, catalogue, query)?;
    run_case(alloc, shelf, &case)
}

fn frontier<S: Shelf>(
    alloc: Global,
    shelf: &mut S,
    rules: &str,
    catalogue: &str,
    query: &str,
) -> Result<Pieces, Refusal>
    ensures goes { GoesBy 3 (S.state shelf.old) (S.state shelf.new) }
    ensures ran { Ran Command.Frontier (S.state shelf.old) (S.state shelf.new)
        (three_requests rules.now catalogue.now query.now) result }
{
    let case = take_case(alloc, shelf, rules, catalogue, query)?;
    let answer = frontier_query(alloc, &case.rules, &case.query)?;
    Ok(Pieces::of(answer))
}

fn verify<S: Shelf>(
    alloc: Global,
    shelf: &mut S,
    rules: &str,
    catalogue: &str,
    query: &str,
    derivation: &str,
) -> Result<Pieces, Refusal>
    ensures goes { GoesBy 4 (S.state shelf.old) (S.state shelf.new) }
    ensures ran { Ran Command.Verify (S.state shelf.old) (S.state shelf.new)
        (four_requests rules.now catalogue.now query.now derivation.now) result }
{
    let case = take_case(alloc, shelf, rules, catalogue, query)?;
    let derivation = take_derivation(alloc, shelf, derivation)?;
    let answer = verify_query(alloc, &case.rules, &case.query, &derivation)?;
    Ok(Pieces::of(answer))
}

fn run_generated(alloc: Global, seed: u64, size: u8) -> Result<Pieces, Refusal>
    requires { IsSize size }
    ensures { AllRan seed size result }
{
    let answer = generate(alloc, seed, size)?;
    Ok(Pieces::of(answer))
}

/// What the words ask to be put out, or why nothing is.
pub fn compose<S: Shelf>(alloc: Global, words: &[String], shelf: &mut S) -> Result<Pieces, Refusal>
    ensures { Composed (S.state shelf.old) (S.state shelf.new) (bytes_of words.now)
        (command_of (bytes_of words.now)) result }
{
    let Some(command) = find_command(words) else {
        return Err(Refusal::Usage);
    };
    let first = word_at(words, 1);
    match command {
        Command::Check => check(alloc, shelf, first),
        Command::Plan => plan(alloc, shelf, first, word_at(words, 2), word_at(words, 3)),
        Command::Run => run(alloc, shelf, first, word_at(words, 2), word_at(words, 3)),
        Command::Frontier => frontier(alloc, shelf, first, word_at(words, 2), word_at(words, 3)),
        Command::Gen { seed, size } => run_generated(alloc, seed, size),
        Command::Verify => verify(
            alloc,
            shelf,
            first,
            word_at(words, 2),
            word_at(words, 3),
            word_at(words, 4),
        ),
    }
}
