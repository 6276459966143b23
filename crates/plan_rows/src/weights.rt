// The selectivities of predicates, as text.
ghost use Rattle.star_model.specs.WellFormed.{WellFormedQuery};

use crate::names::push_part;
use crate::parts::estimated;
use star_model::query::Query;
use std::alloc::{AllocError, Global};

/// The selectivity of each predicate, as `1 per 10`, and the estimated number of rows of the query.
pub fn told(alloc: Global, query: &Query) -> Result<String, AllocError>
    requires { WellFormedQuery query.now }
{
    let mut told = String::new(alloc);
    for pred in query.preds.as_slice() {
        let (num, den) = (pred.num.get(), pred.den.get());
        push_part(
            &mut told,
            "; ",
            format!(in alloc; "{num} per {den}")?.as_str(),
        )?;
    }
    push_part(&mut told, "; ", estimated(alloc, query)?.as_str())?;
    Ok(told)
}
