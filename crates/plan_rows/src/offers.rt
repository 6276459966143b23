// Sets that plans are offered to, one after another.
ghost use Rattle.star_model.specs.WellFormed.{WellFormedQuery};

use crate::vectors::apply_all;
use dominance_prune::{Offer, PlanSet};
use star_model::costs::Costs;
use star_model::plans::Props;
use star_model::query::Query;
use std::alloc::{AllocError, Global};

// The vector of the plan of a text, if there is one.
fn vector(
    alloc: Global,
    query: &Query,
    costs: &Costs,
    text: &str,
) -> Result<Option<Props>, AllocError>
    requires { WellFormedQuery query.now }
{
    let mut made = Vec::new(alloc);
    if !apply_all(&mut made, query, costs, text)? {
        return Ok(None);
    }
    Ok(made.pop())
}

// What becomes of a vector that is offered to a set, and the costs of the members then.
fn offered(alloc: Global, set: &mut PlanSet<Props>, vector: Props) -> Result<String, AllocError> {
    let mut told = match set.offer(vector)? {
        Offer::Kept => String::from_str(alloc, "kept")?,
        Offer::Covered(first) => format!(in alloc; "covered by {first}")?,
    };
    told.push_str(" among")?;
    for member in set.iter() {
        let cost = member.cost.get();
        told.push_str(format!(in alloc; " {cost}")?.as_str())?;
    }
    Ok(told)
}

/// What becomes of the last of the plans of a text, which are offered to a new set one after
/// another: between two of them is ` / `.
pub fn told(alloc: Global, query: &Query, costs: &Costs, text: &str) -> Result<String, AllocError>
    requires { WellFormedQuery query.now }
{
    let mut set = PlanSet::new(alloc);
    let mut told = String::new(alloc);
    for plan in text.split(" / ") {
        told = match vector(alloc, query, costs, plan)? {
            Some(vector) => offered(alloc, &mut set, vector)?,
            None => String::from_str(alloc, "none")?,
        };
    }
    Ok(told)
}
