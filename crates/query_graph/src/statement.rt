// Reading the one statement of a query's text.
ghost use Rattle.std.specs.Prelude.{map, IfOk, MatchResult};
ghost use Rattle.sb_text.specs.Refusal.{AreTokens};
ghost use Rattle.spelling.specs.Cursors.{AreTokensOf};
ghost use Rattle.spelling.specs.Lexemes.{lexemes_of};
ghost use Rattle.query_graph.specs.Words.{said, said_column, said_comparison};
ghost use Rattle.query_graph.specs.StatementReading.{Answers, Understands, where_at, order_at, site_at, query_at, statement_at};
ghost use Rattle.query_graph.specs.Syntax.{IsStrangeQueryAt};
ghost use Rattle.query_graph.specs.Faults.{Says};

use crate::columns::{columns, free_name};
use crate::comparisons::comparisons;
use crate::items::items;
use crate::words::{ColumnWords, ComparisonWords, QueryWords};
use sb_text::{Statement, Token, statements};
use spelling::{Cursor, Unread};
use star_model::lists::{List, Name};
use std::alloc::{AllocError, Global};

// The comparisons, where there are any.
#[tactic(auto, unfolding(crate::specs::StatementReading::where_at))]
fn restriction(alloc: Global, cursor: &mut Cursor<'_>) -> Result<List<ComparisonWords>, Unread>
    ensures { Answers (λ comparisons. map said_comparison comparisons) (where_at cursor.old) result
        cursor.new }
{
    if cursor.the_word(b"where").is_none() {
        return Ok(List::new(alloc));
    }
    comparisons(alloc, cursor)
}

// The columns of the order, where one is asked for.
#[tactic(auto, unfolding(crate::specs::StatementReading::order_at))]
fn order(alloc: Global, cursor: &mut Cursor<'_>) -> Result<List<ColumnWords>, Unread>
    ensures { Answers (λ columns. map said_column columns) (order_at cursor.old) result cursor.new }
{
    if cursor.the_word(b"order").is_none() {
        return Ok(List::new(alloc));
    }
    cursor.the_word(b"by").ok_or(Unread::Strange)?;
    columns(alloc, cursor)
}

// The site, where one is named.
#[tactic(auto, unfolding(crate::specs::StatementReading::site_at))]
fn site(alloc: Global, cursor: &mut Cursor<'_>) -> Result<Option<Name>, Unread>
    ensures { Answers (λ site. site) (site_at cursor.old) result cursor.new }
{
    if cursor.the_word(b"at").is_none() {
        return Ok(None);
    }
    let name = free_name(alloc, cursor)?;
    Ok(Some(name))
}

#[tactic(auto, unfolding(crate::specs::StatementReading::query_at))]
fn query(alloc: Global, cursor: &mut Cursor<'_>) -> Result<QueryWords, Unread>
    ensures { Answers said (query_at cursor.old) result cursor.new }
{
    cursor.the_word(b"select").ok_or(Unread::Strange)?;
    let select = columns(alloc, cursor)?;
    cursor.the_word(b"from").ok_or(Unread::Strange)?;
    let items = items(alloc, cursor)?;
    let comparisons = restriction(alloc, cursor)?;
    let order = order(alloc, cursor)?;
    let site = site(alloc, cursor)?;
    Ok(QueryWords {
        select,
        items,
        comparisons,
        order,
        site,
    })
}

// The query that a statement is.
#[tactic(auto, unfolding(crate::specs::StatementReading::statement_at))]
fn understood(alloc: Global, source: &[u8], statement: &Statement<'_>) -> Result<QueryWords, Unread>
    requires { AreTokensOf source.now statement.now.tokens.now }
    ensures { Understands (statement_at (
      lexemes_of source.now statement.now.tokens.now,
      statement.now.ended,
    )) result }
{
    if !statement.ended {
        return Err(Unread::Strange);
    }
    let mut cursor = Cursor::new(source, statement.tokens);
    let words = query(alloc, &mut cursor)?;
    if cursor.is_done() {
        Ok(words)
    } else {
        Err(Unread::Strange)
    }
}

/// What a text says that is one query, or the number of its first statement that isn't understood:
/// a first that is no query, or is missing, or a second.
pub fn read_statement(
    alloc: Global,
    source: &[u8],
    tokens: &[Token],
) -> Result<Result<QueryWords, u32>, AllocError>
    requires { AreTokens source.now tokens.now }
    ensures { IfOk result (λ read. MatchResult read (λ words. Says source.now (said words))
        (IsStrangeQueryAt source.now)) }
{
    let mut rest = statements(tokens);
    let Some(statement) = rest.next() else {
        return Ok(Err(1));
    };
    let words = match understood(alloc, source, &statement) {
        Ok(words) => words,
        Err(Unread::Strange) => return Ok(Err(1)),
        Err(Unread::Memory) => return Err(AllocError),
    };
    if rest.next().is_some() {
        return Ok(Err(2));
    }
    Ok(Ok(words))
}
