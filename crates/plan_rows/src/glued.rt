// What Glue makes of an access of a heap.
ghost use Rattle.star_model.specs.WellFormed.{WellFormedQuery};

use crate::operators::operator;
use derivation_print::print_derivation;
use dominance_prune::{Offer, PlanSet};
use glue::glue;
use lolepop::Entry;
use plan_offers::leaf_plans;
use star_model::columns::ColList;
use star_model::costs::Costs;
use star_model::plans::{Op, Require};
use star_model::query::Query;
use star_model::sets::{PredSet, QuantSet};
use std::alloc::{AllocError, Global};

// The requirement of these operators; none where one isn't of Glue.
fn required(query: &Query, text: &str) -> Option<Require> {
    let mut require = Require {
        order: ColList::new(),
        site: None,
        temp: false,
        path: ColList::new(),
    };
    if text == "nothing" {
        return Some(require);
    }
    for part in text.split("; ") {
        match operator(query, part)? {
            Op::Sort { cols } => require.order = cols,
            Op::Ship { site } => require.site = Some(site),
            Op::Store { cols } => {
                require.temp = true;
                require.path = cols;
            }
            _ => return None,
        }
    }
    Some(require)
}

// What Glue makes of an access of the first quantifier's heap.
fn glued(
    alloc: Global,
    query: &Query,
    costs: &Costs,
    require: &Require,
) -> Result<PlanSet<Entry>, AllocError>
    requires { WellFormedQuery query.now }
{
    let op = Op::AccessHeap {
        over: QuantSet::single(0),
        preds: PredSet::empty(),
    };
    let plans = leaf_plans(alloc, query, costs, &op)?;
    glue(alloc, query, costs, &plans, require)
}

// The first line of the entry's derivation, and its plan's costs.
fn entry_told(alloc: Global, entry: &Entry) -> Result<String, AllocError> {
    let text = print_derivation(alloc, &entry.trace.unshare(alloc)?)?;
    let text = String::from_utf8_lossy(alloc, text.as_slice())?;
    let first = text.lines().next().unwrap_or("no derivation");
    let props = entry.props();
    let (cost, rescan) = (props.cost.get(), props.rescan.get());
    format!(in alloc; "{first} {cost} {rescan}")
}

// Each member of the set, told of an equal entry, which the member covers.
fn all_told(alloc: Global, plans: PlanSet<Entry>) -> Result<String, AllocError> {
    let mut told_all = String::new(alloc);
    let mut copies = PlanSet::new(alloc);
    for entry in plans.iter() {
        copies.offer(entry.clone()?)?;
        if copies.offer(entry.clone()?)? == Offer::Kept {
            told_all.push_str("kept twice: ")?;
        }
    }
    for entry in copies.iter() {
        let between = if told_all.is_empty() { "" } else { " or " };
        told_all.push_str(between)?;
        told_all.push_str(entry_told(alloc, entry)?.as_str())?;
    }
    Ok(told_all)
}

/// The first line of the derivation of what Glue makes of an access of the first quantifier's heap
/// for a requirement, and its costs. The text has the operators that the requirement names, or
/// `nothing`.
pub fn told(alloc: Global, query: &Query, costs: &Costs, text: &str) -> Result<String, AllocError>
    requires { WellFormedQuery query.now }
{
    match required(query, text) {
        Some(require) => all_told(alloc, glued(alloc, query, costs, &require)?),
        None => String::from_str(alloc, "not understood"),
    }
}
