//! Worked runs: of `plan` over three small texts that a shelf holds, and of `run` over the same and
//! a table, the completeness of the top call speaks. So that clause isn't empty.
#![tactic(auto)]

ghost use Rattle.worked_runs.specs.SomeTold.{SomeTold, SomeRunTold};

/// There are words, a shelf, texts and trees that meet what completeness asks.
pub fn a_plan_is_told()
    ensures { SomeTold }
{}

/// There are such of a run, and the tables of its query hold rows.
pub fn a_run_is_told()
    ensures { SomeRunTold }
{}
