// Glue in a body.

ghost use Rattle.star_model.specs.Expected.{Expression};
ghost use Rattle.star_model.specs.WellFormed.{WellFormedQuery};
ghost use Rattle.star_model.specs.declared.rules.PlanExpr.TheVariants as made;
ghost use Rattle.exchange.specs.Asking.{AsksFrom};
ghost use Rattle.search_places.specs.Memos.{FirstMissing};

use search_places::Search;
use star_model::plans::Goal;
use star_model::rules::ValueExpr;
use star_value::{Env, glued_goal, preds, tables_of};

/// The goal of the Glue, if the memo doesn't hold it.
pub fn missing_at_glue(
    search: &Search<'_>,
    stream: &ValueExpr,
    applied: &ValueExpr,
    env: &Env,
) -> Option<Goal>
    requires { WellFormedQuery search.now.query.now }
    ensures { FirstMissing search.now.memo.now
        (AsksFrom search.now.query.now search.now.rules.now
        (Expression (made.Glue stream.now applied.now) env.now)) result }
{
    let tables = tables_of(stream, env);
    let goal = glued_goal(search.query, tables, preds(applied, env, search.query));
    match search.memo.get(&goal) {
        Some(_) => None,
        None => Some(goal),
    }
}
