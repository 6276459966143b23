// What a run puts, behind its three texts.
ghost use Rattle.std.specs.Prelude.{◌≤◌, ◌⊎◌, length};
ghost use Rattle.sb_outside.specs.Shelf.{GoesBy};
ghost use Rattle.star_model.specs.WellFormed.{WellFormedQuery};
ghost use Rattle.table_taking.specs.QueryTables.{tables_of};
ghost use Rattle.stars_core.specs.Plan.{HasPlan};
ghost use Rattle.stars_core.specs.Running.{CaseRun};

use crate::plan::{find_plan, plan_text, unplanned};
use crate::{Case, Ending, Pieces, Refusal};
use row_answers::rows_text;
use sb_outside::Shelf;
use std::alloc::Global;
use table_taking::take_tables;

// The text of the least plan and that of its rows, or that there is no plan; then no table is read.
pub fn run_case<S: Shelf>(alloc: Global, shelf: &mut S, case: &Case) -> Result<Pieces, Refusal>
    requires { WellFormedQuery case.now.query }
    ensures goes { GoesBy (length (tables_of case.now.query)) (S.state shelf.old)
        (S.state shelf.new) }
    ensures few { ((S.state shelf.new).calls ≤ (S.state shelf.old).calls)
        ⊎ HasPlan case.now.rules case.now.query }
    ensures ran { CaseRun case.now.rules case.now.query (S.state shelf.old) (S.state shelf.new)
        result }
{
    let Some(plan) = find_plan(alloc, &case.rules, &case.query)? else {
        let answer = unplanned(alloc)?;
        return Ok(Pieces::of(answer));
    };
    let text = plan_text(alloc, &plan)?;
    let tables = take_tables(alloc, shelf, &case.query)?;
    let rows = rows_text(alloc, &case.query, &plan.node, &tables)?;
    Ok(Pieces {
        ending: Ending::Done,
        text,
        rows: Some(rows),
    })
}
