// What is asked of a text over a query.
ghost use Rattle.star_model.specs.WellFormed.{WellFormedQuery};

use crate::{counts, derivations, glued, meanings, offers, parts, planned, vectors, weights};
use star_model::costs::Costs;
use star_model::query::Query;
use std::alloc::{AllocError, Global};

/// What comes of a text over a query, by what is asked.
pub fn asked(
    alloc: Global,
    kind: &str,
    query: &Query,
    costs: &Costs,
    text: &str,
) -> Result<String, AllocError>
    requires { WellFormedQuery query.now }
{
    match kind.as_bytes() {
        b"meaning" => meanings::told(alloc, query, text),
        b"card" => parts::estimated(alloc, query),
        b"part" => parts::told(alloc, query, text),
        b"weights" => weights::told(alloc, query),
        b"vector" => vectors::told(alloc, query, costs, text),
        b"counts" => counts::told(alloc, query, costs, text),
        b"nodes" => planned::told(alloc, query, costs, text),
        b"offers" => offers::told(alloc, query, costs, text),
        b"glued" => glued::told(alloc, query, costs, text),
        b"derivation" => derivations::told(alloc, query, costs, text),
        _ => String::from_str(alloc, "not asked"),
    }
}
