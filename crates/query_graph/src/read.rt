// Reading a query over a catalogue.
ghost use Rattle.std.specs.Prelude.{◌≡◌, ◌≤◌, ℕ, List, length, None, Some, IfOk};
ghost use Rattle.sb_text.specs.Limits.{most_text_bytes};
ghost use Rattle.star_model.specs.Limits.{most_predicates};
ghost use Rattle.sb_text.specs.Refusal.{AreTokens, fault_of};
ghost use Rattle.star_model.specs.declared.faults.LimitKind.{LimitKind};
ghost use Rattle.star_model.specs.WellFormed.{WellFormedCatalogue};
ghost use Rattle.query_graph.specs.Queries.{query_of};
ghost use Rattle.query_graph.specs.Words.{said};
ghost use Rattle.query_graph.specs.NameTests.{name_fault};
ghost use Rattle.query_graph.specs.Faults.{NamesUnknown, DefinesTwice, Beyond, Says, ReadsQuery};

use crate::QueryFault;
use crate::limits::first_limit;
use crate::names::{defines_twice, names_unknown};
use crate::resolve::query_of;
use crate::statement::read_statement;
use crate::types::first_clash;
use crate::words::QueryWords;
use sb_text::{Token, tokens};
use star_model::catalogue::Catalogue;
use star_model::query::Query;
use std::alloc::{AllocError, Global};

// The query that a statement means whose names are defined once and which keeps the limits.
fn meaning(alloc: Global, catalogue: &Catalogue, words: &QueryWords) -> Result<Query, AllocError>
    requires formed { WellFormedCatalogue catalogue.now }
    requires known { NamesUnknown catalogue.now (said words.now) → ⊥ }
    requires once { DefinesTwice (said words.now) → ⊥ }
    requires keeps { (what : LimitKind) → Beyond (said words.now) what → ⊥ }
    ensures means { IfOk result (λ query. query_of catalogue.now (said words.now) ≡ Some query) }
    ensures few { IfOk result (λ query. length query.preds ≤ most_predicates) }
{
    match query_of(alloc, catalogue, words)? {
        Some(query) => Ok(query),
        None => unreachable!(),
    }
}

// What is wrong with the names of the statement: it uses one that isn't defined, or else defines
// one twice.
fn name_fault(
    alloc: Global,
    catalogue: &Catalogue,
    words: &QueryWords,
) -> Result<Option<QueryFault>, AllocError>
    ensures { IfOk result (λ found. found ≡ name_fault catalogue.now (said words.now)) }
{
    if names_unknown(alloc, catalogue, words)? {
        return Ok(Some(QueryFault::Unknown(1)));
    }
    if defines_twice(alloc, words)? {
        return Ok(Some(QueryFault::Twice(1)));
    }
    Ok(None)
}

// The query that the statement means, or its first fault.
fn judge(alloc: Global, catalogue: &Catalogue, words: &QueryWords) -> Result<Query, QueryFault>
    requires { WellFormedCatalogue catalogue.now }
    ensures { (text : List ℕ) → fault_of text ≡ None → Says text (said words.now)
        → ReadsQuery catalogue.now text result }
{
    if let Some(fault) = name_fault(alloc, catalogue, words)? {
        return Err(fault);
    }
    if let Some(limit) = first_limit(words) {
        return Err(QueryFault::Limit(1, limit));
    }
    let query = meaning(alloc, catalogue, words)?;
    match first_clash(&query) {
        Some(predicate) => Err(QueryFault::TypeClash(predicate)),
        None => Ok(query),
    }
}

// The query of a text with these tokens, or its first fault.
fn read_tokens(
    alloc: Global,
    catalogue: &Catalogue,
    source: &[u8],
    tokens: &[Token],
) -> Result<Query, QueryFault>
    requires formed { WellFormedCatalogue catalogue.now }
    requires tokens { AreTokens source.now tokens.now }
    ensures { ReadsQuery catalogue.now source.now result }
{
    match read_statement(alloc, source, tokens)? {
        Ok(words) => judge(alloc, catalogue, &words),
        Err(statement) => Err(QueryFault::Syntax(statement)),
    }
}

/// The query that a text spells over a catalogue, with a copy of it; or the first fault of the
/// text.
pub fn read_query(alloc: Global, catalogue: &Catalogue, source: &[u8]) -> Result<Query, QueryFault>
    requires formed { WellFormedCatalogue catalogue.now }
    requires size { length source.now ≤ most_text_bytes }
    ensures { ReadsQuery catalogue.now source.now result }
{
    let tokens = tokens(alloc, source)?;
    read_tokens(alloc, catalogue, source, tokens.as_slice())
}
