// The batches in which a cursor gives the rows of a plan.
ghost use Rattle.std.specs.Prelude.{◌≡◌, true};
ghost use Rattle.star_model.specs.Operators.{none_reaches_outside};
ghost use Rattle.star_model.specs.WellFormed.{WellFormedQuery};
ghost use Rattle.lolepop.specs.PlanTrees.{top_vector};
ghost use Rattle.listed_rows.specs.Executable.{Executable};
ghost use Rattle.plan_execute.specs.Loaded.{AreLoaded};

use lolepop::PlanNode;
use plan_execute::{Cursor, execute, start};
use row_steps::Tables;
use sb_outside::MemoryShelf;
use star_check::CheckedRules;
use star_expand::best;
use star_model::query::Query;
use std::alloc::{AllocError, Global};
use table_taking::take_tables;

// How many rows each of four batches has.
fn lengths_of(alloc: Global, cursor: &mut Cursor<'_>) -> Result<String, AllocError> {
    let mut lengths = String::new(alloc);
    for _call in 0..4 {
        let between = if lengths.is_empty() { "" } else { " " };
        lengths.push_str(between)?;
        match cursor.next_batch()? {
            Some(batch) => lengths.push_str(format!(in alloc; "{}", batch.len())?.as_str())?,
            None => lengths.push_str("none")?,
        }
    }
    Ok(lengths)
}

// How many rows the first batches of a plan have, and how many it has.
fn told_rows(
    alloc: Global,
    query: &Query,
    node: &PlanNode,
    tables: &Tables,
) -> Result<String, AllocError>
    requires query { WellFormedQuery query.now }
    requires tables { AreLoaded query.now tables.now (top_vector node.now).tables }
    requires closed { none_reaches_outside query.now (top_vector node.now).preds
        (top_vector node.now).tables ≡ true }
    requires node { Executable query.now node.now }
{
    let mut cursor = start(alloc, query, node, tables)?;
    let lengths = lengths_of(alloc, &mut cursor)?;
    let rows = execute(alloc, query, node, tables)?;
    format!(in alloc; "{lengths}\nexecute {}\n", rows.len())
}

/// How many rows each of the first four batches of a plan for the query has, where it is pulled
/// over the tables of the shelf, and how many it has where it is executed at once.
pub fn told_batches(
    alloc: Global,
    rules: &CheckedRules,
    query: &Query,
    shelf: &mut MemoryShelf,
) -> Result<String, AllocError>
    requires { WellFormedQuery query.now }
{
    let Some(plan) = best(alloc, rules, query)? else {
        return String::from_str(alloc, "no plan\n");
    };
    match take_tables(alloc, shelf, query) {
        Ok(tables) => told_rows(alloc, query, &plan.node, &tables),
        Err(_) => Err(AllocError),
    }
}
