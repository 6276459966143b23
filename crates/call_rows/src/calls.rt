// The calls by their names.
ghost use Rattle.star_model.specs.WellFormed.{WellFormedQuery};

use crate::asked::told_closed;
use crate::batches::told_batches;
use crate::expanded::{told_again, told_goals, told_moved};
use crate::kept::told_kept;
use crate::sets::{told_glue, told_offers, told_unshared};
use sb_outside::MemoryShelf;
use star_check::CheckedRules;
use star_model::query::Query;
use std::alloc::{AllocError, Global};

/// What came of the call with this name for the query's goal, or over its tables.
pub fn told(
    alloc: Global,
    call: &str,
    rules: &CheckedRules,
    query: &Query,
    shelf: &mut MemoryShelf,
) -> Result<String, AllocError>
    requires { WellFormedQuery query.now }
{
    if call == "expand_query" {
        told_goals(alloc, rules, query)
    } else if call == "expand" {
        told_again(alloc, rules, query)
    } else if call == "closed" {
        told_closed(alloc, rules, query)
    } else if call == "put" {
        told_moved(alloc, rules, query)
    } else if call == "keep" {
        told_kept(alloc, rules, query)
    } else if call == "unshare" {
        told_unshared(alloc, rules, query)
    } else if call == "glue" {
        told_glue(alloc, rules, query)
    } else if call == "offer" {
        told_offers(alloc, rules, query)
    } else if call == "batches" {
        told_batches(alloc, rules, query, shelf)
    } else {
        String::from_str(alloc, "no such call")
    }
}
