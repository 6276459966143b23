// The laws of the definitions, each the clause of a function that does nothing.

ghost use Rattle.std.specs.Prelude.{◌≡◌, ℕ, Option};
ghost use Rattle.workload_gen.specs.Tables.{drawn_tables};
ghost use Rattle.workload_gen.specs.Trees.{catalogue_tree, query_tree};
ghost use Rattle.workload_gen.specs.Workloads.{IsSize, workload};
ghost use Rattle.workload_runs.specs.AcceptedTexts.{IsShort};
ghost use Rattle.workload_runs.specs.Cases.{Says};
ghost use Rattle.workload_runs.specs.HeldRows.{HoldRows};
ghost use Rattle.workload_runs.specs.RulesTree.{generator_rules};
ghost use Rattle.workload_runs.specs.Runs.{RunsTo};
ghost use Rattle.workload_runs.specs.declared.tally.Tally.{Tally};

/// The texts of each workload say rules and a query, and are short enough to be read.
pub fn workloads_are_accepted()
    ensures says { (seed size : ℕ) → IsSize size → Says (workload seed size) generator_rules
        (query_tree (drawn_tables seed size)) }
    ensures rules { (seed size : ℕ) → IsSize size → IsShort (workload seed size).rules }
    ensures catalogue { (seed size : ℕ) → IsSize size → IsShort (workload seed size).catalogue }
    ensures query { (seed size : ℕ) → IsSize size → IsShort (workload seed size).query }
{}

/// The records of each table of a workload hold rows.
pub fn records_hold_rows()
    ensures { (seed size : ℕ) → IsSize size
        → HoldRows (catalogue_tree (drawn_tables seed size)) (workload seed size).tables }
{}

/// A workload comes to one answer: what is counted is of the definitions, and nothing is left to
/// choose.
pub fn one_run()
    ensures { (seed size : ℕ) → IsSize size → (a b : Option Tally) → RunsTo (workload seed size) a
        → RunsTo (workload seed size) b → a ≡ b }
{}
