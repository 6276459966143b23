// Reading names and columns.
ghost use Rattle.std.specs.Prelude.{◌≡◌, map};
ghost use Rattle.query_graph.specs.Queries.{reserved_in_queries};
ghost use Rattle.star_model.specs.Names.{is_among};
ghost use Rattle.query_graph.specs.Words.{said_column};
ghost use Rattle.query_graph.specs.StatementReading.{Answers, free_word, column_at, columns_at};

use crate::words::ColumnWords;
use spelling::{Cursor, Unread};
use star_model::lists::{List, Name};
use std::alloc::Global;

/// Whether no table, quantifier or site has such a name.
pub fn is_reserved(name: &[u8]) -> bool
    ensures { result ≡ is_among reserved_in_queries name.now }
{
    name == b"select".as_slice()
        || name == b"from".as_slice()
        || name == b"where".as_slice()
        || name == b"and".as_slice()
        || name == b"order".as_slice()
        || name == b"by".as_slice()
        || name == b"at".as_slice()
}

/// The next lexeme, where it is a word that isn't reserved.
#[tactic(auto, unfolding(crate::specs::StatementReading::free_word))]
pub fn free_name(alloc: Global, cursor: &mut Cursor<'_>) -> Result<Name, Unread>
    ensures { Answers (λ name. name) (free_word cursor.old) result cursor.new }
{
    let word = cursor.word().ok_or(Unread::Strange)?;
    if is_reserved(word) {
        return Err(Unread::Strange);
    }
    Ok(Name::from_slice(alloc, word)?)
}

/// A column of a quantifier.
#[tactic(auto, unfolding(crate::specs::StatementReading::column_at))]
pub fn column(alloc: Global, cursor: &mut Cursor<'_>) -> Result<ColumnWords, Unread>
    ensures { Answers said_column (column_at cursor.old) result cursor.new }
{
    let quantifier = free_name(alloc, cursor)?;
    cursor.the_symbol(b".").ok_or(Unread::Strange)?;
    let word = cursor.word().ok_or(Unread::Strange)?;
    let column = Name::from_slice(alloc, word)?;
    Ok(ColumnWords { quantifier, column })
}

/// Columns with commas between.
#[tactic(auto, unfolding(crate::specs::StatementReading::columns_at))]
pub fn columns(alloc: Global, cursor: &mut Cursor<'_>) -> Result<List<ColumnWords>, Unread>
    ensures { Answers (λ columns. map said_column columns) (columns_at cursor.old) result
        cursor.new }
{
    let mut columns = List::new(alloc);
    loop {
        let column = column(alloc, cursor)?;
        columns.push(column)?;
        if cursor.the_symbol(b",").is_none() {
            return Ok(columns);
        }
    }
}
