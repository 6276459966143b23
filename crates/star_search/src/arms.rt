// What is found in tables: what Glue makes, and what references come to.

ghost use Rattle.std.specs.Prelude.{IfOk};
ghost use Rattle.star_model.specs.Expected.{Call, Expression};
ghost use Rattle.star_model.specs.declared.rules.PlanExpr.TheVariants as plain;
ghost use Rattle.table_set_memo.specs.Memos.{IsHeld};
ghost use Rattle.exchange.specs.Places.{IsBestOf};
ghost use Rattle.search_places.specs.Searching.{IsOpen, LeadsTo};
ghost use Rattle.search_places.specs.Shared.{IsGlued, HoldsShared};

use dominance_prune::PlanSet;
use glue::glue;
use lolepop::Entry;
use search_places::Search;
use shared_sets::{GlueRequest, SharedSet, Tables};
use star_model::lists::Name;
use star_model::rules::ValueExpr;
use star_value::{Env, glued_goal};
use std::alloc::{AllocError, Global};

/// The plans that Glue makes of the set that the memo has for its goal, which it makes once for all
/// places that ask for the same.
pub fn glued_plans(
    alloc: Global,
    search: &Search<'_>,
    stream: &ValueExpr,
    preds: &ValueExpr,
    env: &Env,
    tables: &mut Tables,
) -> Result<SharedSet, AllocError>
    requires open { IsOpen search.now }
    requires leads { LeadsTo search.now (Expression (plain.Glue stream.now preds.now) env.now) }
    requires shared { HoldsShared search.now.query.now search.now.rules.now tables.old }
    ensures best { IfOk result (IsBestOf search.now.query.now search.now.rules.now
        (Expression (plain.Glue stream.now preds.now) env.now)) }
    ensures shared { HoldsShared search.now.query.now search.now.rules.now tables.new }
{
    let required = star_value::stream(stream, env, search.query);
    let applied = star_value::preds(preds, env, search.query);
    let request = GlueRequest {
        goal: glued_goal(search.query, required.tables, applied),
        require: required.require,
    };
    if let Some(plans) = tables.glued.get(&request) {
        return plans.clone();
    }
    let plans = SharedSet::new(alloc, glued_of_goal(alloc, search, &request)?)?;
    tables.glued.put(request, plans.clone()?)?;
    Ok(plans)
}

// What Glue makes for the request, of the set that the memo has for its goal.
fn glued_of_goal(
    alloc: Global,
    search: &Search<'_>,
    request: &GlueRequest,
) -> Result<PlanSet<Entry>, AllocError>
    requires open { IsOpen search.now }
    requires held { IsHeld search.now.memo.now request.now.goal }
    ensures { IfOk result (IsGlued search.now.query.now search.now.rules.now request.now) }
{
    search.rules.stands();
    match search.memo.get(&request.goal) {
        Some(plans) => glue(
            alloc,
            search.query,
            search.rules.costs(),
            plans,
            &request.require,
        ),
        None => unreachable!(),
    }
}

/// Keeps the best plans of a STAR under the values of its parameters, unless they are kept.
pub fn keep_plans(
    search: &Search<'_>,
    star: &Name,
    env: &Env,
    plans: &SharedSet,
    tables: &mut Tables,
) -> Result<(), AllocError>
    requires best { IsBestOf search.now.query.now search.now.rules.now (Call star.now env.now)
        plans.now }
    requires shared { HoldsShared search.now.query.now search.now.rules.now tables.old }
    ensures { HoldsShared search.now.query.now search.now.rules.now tables.new }
{
    // No STAR refers to itself, not even through others; but the search doesn't say so.
    if tables.references.find(star, env).is_some() {
        return Ok(());
    }
    tables.references.keep_shared(star, env, plans.clone()?)?;
    Ok(())
}
