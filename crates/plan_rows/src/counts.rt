// How many inputs operators take.
ghost use Rattle.star_model.specs.WellFormed.{WellFormedQuery};

use crate::names::push_part;
use crate::operators::operator;
use crate::vectors::apply_all;
use lolepop::step;
use star_model::costs::Costs;
use star_model::query::Query;
use std::alloc::{AllocError, Global};

/// To how many of the vectors of a text's plans, from the first on, its last operator is
/// applicable: the numbers with commas between.
pub fn told(alloc: Global, query: &Query, costs: &Costs, text: &str) -> Result<String, AllocError>
    requires { WellFormedQuery query.now }
{
    let (plans, last) = text.rsplit_once("; ").unwrap_or(("", text));
    let mut made = Vec::new(alloc);
    if !apply_all(&mut made, query, costs, plans)? {
        return String::from_str(alloc, "no plans");
    }
    let Some(op) = operator(query, last) else {
        return String::from_str(alloc, "not understood");
    };
    let vectors = made.as_slice();
    let mut told = String::new(alloc);
    for count in 0..=vectors.len() {
        if step(query, costs, &op, &vectors[..count]).is_some() {
            push_part(&mut told, ",", format!(in alloc; "{count}")?.as_str())?;
        }
    }
    Ok(told)
}
