// The plans of the places to which a goal leads. Each function's recursion goes down: references
// lead to lower STARs, and the inputs of a body nest less deep.

ghost use Rattle.std.specs.Prelude.{[], ◌∷◌, IfOk, OnOk};
ghost use Rattle.star_model.specs.Expected.{Call, Expression};
ghost use Rattle.dominance_prune.specs.Gathering.{Gathers};
ghost use Rattle.lolepop.specs.Derived.{is_better_plan};
ghost use Rattle.exchange.specs.Places.{IsBestOf, RangesWay};
ghost use Rattle.search_places.specs.Searching.{IsOpen, LeadsTo, IsWithin};
ghost use Rattle.search_places.specs.Shared.{HoldsShared};

use crate::arms::{glued_plans, keep_plans};
use crate::operators::{over_nothing, over_one, over_two};
use dominance_prune::PlanSet;
use lolepop::Entry;
use plan_offers::add_references;
use search_places::{Part, Search, with_number, with_value};
use shared_sets::{SharedSet, Tables};
use star_model::derivations::ForAllValues;
use star_model::lists::Name;
use star_model::rules::{ForAll, PlanExpr};
use star_value::{Env, meets, numbered, values};
use std::alloc::{AllocError, Global};

/// The best plans of an expression under bindings.
#[cycle(search)]
pub fn plans_of(
    alloc: Global,
    search: &Search<'_>,
    expr: &PlanExpr,
    env: &Env,
    tables: &mut Tables,
) -> Result<SharedSet, AllocError>
    requires open { IsOpen search.now }
    requires leads { LeadsTo search.now (Expression expr.now env.now) }
    requires shared { HoldsShared search.now.query.now search.now.rules.now tables.old }
    ensures best { IfOk result (IsBestOf search.now.query.now search.now.rules.now
        (Expression expr.now env.now)) }
    ensures shared { HoldsShared search.now.query.now search.now.rules.now tables.new }
{
    search.rules.stands();
    match expr {
        PlanExpr::Leaf { flavour, args } => {
            over_nothing(alloc, search, *flavour, args.as_slice(), env)
        }
        PlanExpr::Unary {
            flavour,
            args,
            input,
        } => {
            let inputs = plans_of(alloc, search, input.get(), env, tables)?;
            over_one(alloc, search, *flavour, args.as_slice(), env, inputs.get())
        }
        PlanExpr::Binary {
            flavour,
            args,
            left,
            right,
        } => {
            let lefts = plans_of(alloc, search, left.get(), env, tables)?;
            if lefts.get().len() == 0 {
                // Nothing is made of it, whatever is at the right.
                return Ok(lefts);
            }
            let rights = plans_of(alloc, search, right.get(), env, tables)?;
            let (lefts, rights) = (lefts.get(), rights.get());
            over_two(alloc, search, *flavour, args.as_slice(), env, lefts, rights)
        }
        PlanExpr::Glue { stream, preds } => {
            glued_plans(alloc, search, stream, preds, env, tables)
        }
        PlanExpr::Reference { star, args } => {
            let values = values(args.as_slice(), env, search.query);
            plans_of_reference(alloc, search, star, &values, tables)
        }
    }
}

// The best plans of a STAR to which a body refers, which are kept for the next reference to it with
// the same values.
#[cycle(search)]
fn plans_of_reference(
    alloc: Global,
    search: &Search<'_>,
    star: &Name,
    env: &Env,
    tables: &mut Tables,
) -> Result<SharedSet, AllocError>
    requires open { IsOpen search.now }
    requires leads { LeadsTo search.now (Call star.now env.now) }
    requires shared { HoldsShared search.now.query.now search.now.rules.now tables.old }
    ensures best { IfOk result (IsBestOf search.now.query.now search.now.rules.now
        (Call star.now env.now)) }
    ensures shared { HoldsShared search.now.query.now search.now.rules.now tables.new }
{
    if let Some(plans) = tables.references.find_shared(star, env) {
        return plans.clone();
    }
    let plans = plans_of_call(alloc, search, star, env, tables)?;
    let plans = SharedSet::new(alloc, plans)?;
    keep_plans(search, star, env, &plans, tables)?;
    Ok(plans)
}

/// The best plans of a STAR under the values of its parameters.
#[cycle(search)]
pub fn plans_of_call(
    alloc: Global,
    search: &Search<'_>,
    star: &Name,
    env: &Env,
    tables: &mut Tables,
) -> Result<PlanSet<Entry>, AllocError>
    requires open { IsOpen search.now }
    requires leads { LeadsTo search.now (Call star.now env.now) }
    requires shared { HoldsShared search.now.query.now search.now.rules.now tables.old }
    ensures best { IfOk result (IsBestOf search.now.query.now search.now.rules.now
        (Call star.now env.now)) }
    ensures shared { HoldsShared search.now.query.now search.now.rules.now tables.new }
{
    search.rules.stands();
    let mut out = PlanSet::new(alloc);
    if let Some(found) = search.rules.star(star) {
        for (index, alternative) in found.alternatives.as_slice().iter().enumerate() {
            let part = Part {
                star,
                number: index as u32 + 1,
                alternative,
            };
            let none = ForAllValues::new();
            add_ranges(
                alloc,
                search,
                &part,
                alternative.ranges.as_slice(),
                &none,
                env,
                tables,
                &mut out,
            )?;
        }
    }
    out.apart();
    Ok(out)
}

// Offers the plans of an alternative of which these for-all names are still to be bound.
#[cycle(search)]
fn add_ranges(
    alloc: Global,
    search: &Search<'_>,
    part: &Part<'_>,
    ranges: &[ForAll],
    picked: &ForAllValues,
    env: &Env,
    tables: &mut Tables,
    out: &mut PlanSet<Entry>,
) -> Result<(), AllocError>
    requires open { IsOpen search.now }
    requires within { IsWithin search.now part.now.star.now part.now.number part.now.alternative.now
        ranges.now picked.now env.now }
    requires shared { HoldsShared search.now.query.now search.now.rules.now tables.old }
    ensures gathered { OnOk result (Gathers is_better_plan out.old out.new
        (RangesWay search.now.query.now search.now.rules.now part.now.star.now part.now.number
        part.now.alternative.now ranges.now picked.now env.now)) }
    ensures shared { HoldsShared search.now.query.now search.now.rules.now tables.new }
{
    match ranges {
        [] => add_body(alloc, search, part, picked, env, tables, out),
        [first, more @ ..] => {
            add_members(alloc, search, part, first, more, picked, env, tables, out)
        }
    }
}

// The same where the first of these names is bound to each member of its range in turn.
#[cycle(search)]
fn add_members(
    alloc: Global,
    search: &Search<'_>,
    part: &Part<'_>,
    first: &ForAll,
    more: &[ForAll],
    picked: &ForAllValues,
    env: &Env,
    tables: &mut Tables,
    out: &mut PlanSet<Entry>,
) -> Result<(), AllocError>
    requires open { IsOpen search.now }
    requires within { IsWithin search.now part.now.star.now part.now.number part.now.alternative.now
        (first.now ∷ more.now) picked.now env.now }
    requires shared { HoldsShared search.now.query.now search.now.rules.now tables.old }
    ensures gathered { OnOk result (Gathers is_better_plan out.old out.new
        (RangesWay search.now.query.now search.now.rules.now part.now.star.now part.now.number
        part.now.alternative.now (first.now ∷ more.now) picked.now env.now)) }
    ensures shared { HoldsShared search.now.query.now search.now.rules.now tables.new }
{
    for (number, member) in numbered(&first.range, env, search.query) {
        let next = with_value(env, member);
        let numbers = with_number(picked, number as u32 + 1);
        add_ranges(alloc, search, part, more, &numbers, &next, tables, out)?;
    }
    Ok(())
}

// The same where all names are bound: if the condition holds, the plans of the body, each referred
// to.
#[cycle(search)]
fn add_body(
    alloc: Global,
    search: &Search<'_>,
    part: &Part<'_>,
    picked: &ForAllValues,
    env: &Env,
    tables: &mut Tables,
    out: &mut PlanSet<Entry>,
) -> Result<(), AllocError>
    requires open { IsOpen search.now }
    requires within { IsWithin search.now part.now.star.now part.now.number part.now.alternative.now
        [] picked.now env.now }
    requires shared { HoldsShared search.now.query.now search.now.rules.now tables.old }
    ensures gathered { OnOk result (Gathers is_better_plan out.old out.new
        (RangesWay search.now.query.now search.now.rules.now part.now.star.now part.now.number
        part.now.alternative.now [] picked.now env.now)) }
    ensures shared { HoldsShared search.now.query.now search.now.rules.now tables.new }
{
    search.rules.stands();
    if meets(&part.alternative.condition, env, search.query) {
        let plans = plans_of(alloc, search, &part.alternative.body, env, tables)?;
        add_references(alloc, part.star, part.number, picked, plans.get(), out)?;
    }
    Ok(())
}
