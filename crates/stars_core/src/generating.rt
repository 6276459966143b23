// The run of a generated workload.
ghost use Rattle.std.specs.Prelude.{◌≡◌, IfOk, string_bytes};
ghost use Rattle.stars_core.specs.Tallies.{which_workload, searched, found, tally_line};
ghost use Rattle.stars_core.specs.Generating.{Generated};

use crate::plan::unplanned;
use crate::{Answer, Ending};
use std::alloc::{AllocError, Global};
use workload_runs::{GenFault, Tally, run_workload};

fn which_workload(alloc: Global, seed: u64, size: u8) -> Result<String, AllocError>
    ensures { IfOk result (λ text. string_bytes text ≡ which_workload seed size) }
{
    let mut text = format!(in alloc; "gen seed {seed}")?;
    let size = format!(in alloc; " size {size}")?;
    text.push_str(size.as_str())?;
    Ok(text)
}

// The goals that the query asks for, and the vectors on their frontiers.
fn searched(alloc: Global, tally: &Tally) -> Result<String, AllocError>
    ensures { IfOk result (λ text. string_bytes text ≡ searched tally.now) }
{
    let goals = tally.goals;
    let kept = tally.kept;
    let mut text = format!(in alloc; " goals {goals}")?;
    let kept = format!(in alloc; " kept {kept}")?;
    text.push_str(kept.as_str())?;
    Ok(text)
}

// The cost of a cheapest plan, and the number of the query's rows.
fn found(alloc: Global, tally: &Tally) -> Result<String, AllocError>
    ensures { IfOk result (λ text. string_bytes text ≡ found tally.now) }
{
    let cost = tally.cost.get();
    let rows = tally.rows;
    let mut text = format!(in alloc; " cost {cost}")?;
    let rows = format!(in alloc; " rows {rows}")?;
    text.push_str(rows.as_str())?;
    Ok(text)
}

// The line that tells what the run of a workload comes to.
fn tally_line(alloc: Global, seed: u64, size: u8, tally: &Tally) -> Result<Vec<u8>, AllocError>
    ensures { IfOk result (λ text. text.items ≡ tally_line seed size tally.now) }
{
    let mut text = which_workload(alloc, seed, size)?;
    let searched = searched(alloc, tally)?;
    let found = found(alloc, tally)?;
    text.push_str(searched.as_str())?;
    text.push_str(found.as_str())?;
    text.push_str("\n")?;
    Ok(text.into_bytes())
}

/// What planning and running the query of the workload of a seed and a size comes to, as a line;
/// or that its query has no plan. `Size` comes where the size isn't 1 to 8.
pub fn generate(alloc: Global, seed: u64, size: u8) -> Result<Answer, GenFault>
    ensures { Generated seed size result }
{
    match run_workload(alloc, seed, size)? {
        Some(tally) => {
            let text = tally_line(alloc, seed, size, &tally)?;
            Ok(Answer {
                ending: Ending::Done,
                text,
            })
        }
        None => {
            let answer = unplanned(alloc)?;
            Ok(answer)
        }
    }
}
