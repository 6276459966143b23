// What a call answers of three texts, and of the files of the query's tables.
ghost use Rattle.std.specs.Prelude.{◌≤◌, length};
ghost use Rattle.star_model.specs.WellFormedRules.{WellFormedRules};
ghost use Rattle.star_model.specs.WellFormed.{WellFormedCatalogue};

use crate::calls::told;
use catalogue::read_catalogue;
use query_graph::read_query;
use sb_outside::MemoryShelf;
use star_check::{CheckedRules, check_rules};
use star_model::catalogue::Catalogue;
use star_model::rules::RuleFile;
use star_syntax::read_rules;
use std::alloc::{AllocError, Global};

// No row has a text that is refused. So what stops one is want of memory, and all faults are told
// as this.

// The greatest length of a text in bytes.
const LONGEST: usize = 1_048_576;

fn checked(alloc: Global, rules: RuleFile) -> Option<CheckedRules>
    requires { WellFormedRules rules }
{
    check_rules(alloc, rules).ok()
}

// The rules that the text says, if they are accepted.
fn rules_of(alloc: Global, text: &[u8]) -> Option<CheckedRules>
    requires { length text.now ≤ 1048576 }
{
    match read_rules(alloc, text) {
        Ok(rules) => checked(alloc, rules),
        Err(_) => None,
    }
}

// What the call answers of the query that the text says over the catalogue.
fn answer_over(
    alloc: Global,
    call: &str,
    rules: &CheckedRules,
    catalogue: &Catalogue,
    query: &[u8],
    shelf: &mut MemoryShelf,
) -> Result<String, AllocError>
    requires catalogue { WellFormedCatalogue catalogue.now }
    requires query { length query.now ≤ 1048576 }
{
    match read_query(alloc, catalogue, query) {
        Ok(query) => told(alloc, call, rules, &query, shelf),
        Err(_) => Err(AllocError),
    }
}

/// What came of the call with this name.
pub fn answer(
    alloc: Global,
    call: &str,
    rules: &[u8],
    catalogue: &[u8],
    query: &[u8],
    shelf: &mut MemoryShelf,
) -> Result<String, AllocError> {
    if rules.len() > LONGEST || catalogue.len() > LONGEST || query.len() > LONGEST {
        return Err(AllocError);
    }
    let Some(rules) = rules_of(alloc, rules) else {
        return Err(AllocError);
    };
    match read_catalogue(alloc, catalogue) {
        Ok(catalogue) => answer_over(alloc, call, &rules, &catalogue, query, shelf),
        Err(_) => Err(AllocError),
    }
}
