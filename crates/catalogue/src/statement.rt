// Reading a statement.
ghost use Rattle.std.specs.Prelude.{◌≡◌};
ghost use Rattle.catalogue.specs.Reading.{items_at, site_at, type_named, column_at, table_at, index_at, statement_at};
ghost use Rattle.spelling.specs.Answers.{Answers};
ghost use Rattle.catalogue.specs.Statements.{StatementRead};
ghost use Rattle.sb_text.specs.Statements.{part_of};
ghost use Rattle.spelling.specs.Cursors.{AreTokensOf, part_said};
ghost use Rattle.spelling.specs.Reading.{a_word};

use crate::words::{ColumnWords, IndexWords, SiteWords, StatementWords, TableWords};
use sb_text::Statement;
use spelling::{Cursor, Unread, text_bytes};
use star_model::catalogue::ColType;
use star_model::lists::{Bytes, List, Name};
use std::alloc::Global;

#[tactic(auto, unfolding(crate::specs::Reading::site_at))]
fn site(alloc: Global, cursor: &mut Cursor<'_>) -> Result<SiteWords, Unread>
    ensures { Answers (site_at cursor.old) result cursor.new }
{
    let name = cursor.word().ok_or(Unread::Strange)?;
    cursor.the_word(b"cpu").ok_or(Unread::Strange)?;
    let cpu = cursor.number().ok_or(Unread::Strange)?;
    cursor.the_word(b"net").ok_or(Unread::Strange)?;
    let net = cursor.number().ok_or(Unread::Strange)?;
    let name = Name::from_slice(alloc, name)?;
    Ok(SiteWords { name, cpu, net })
}

fn type_named(word: &[u8]) -> Option<ColType>
    ensures { result ≡ type_named word.now }
{
    match word {
        b"int" => Some(ColType::Int),
        b"text" => Some(ColType::Text),
        _ => None,
    }
}

#[tactic(auto, unfolding(crate::specs::Reading::column_at))]
fn column(alloc: Global, cursor: &mut Cursor<'_>) -> Result<ColumnWords, Unread>
    ensures { Answers (column_at cursor.old) result cursor.new }
{
    let name = cursor.word().ok_or(Unread::Strange)?;
    let word = cursor.word().ok_or(Unread::Strange)?;
    let kind = type_named(word).ok_or(Unread::Strange)?;
    cursor.the_word(b"width").ok_or(Unread::Strange)?;
    let width = cursor.number().ok_or(Unread::Strange)?;
    cursor.the_word(b"distinct").ok_or(Unread::Strange)?;
    let distinct = cursor.number().ok_or(Unread::Strange)?;
    let name = Name::from_slice(alloc, name)?;
    Ok(ColumnWords {
        name,
        kind,
        width,
        distinct,
    })
}

// One or more columns, with a comma between two.
fn columns(alloc: Global, cursor: &mut Cursor<'_>) -> Result<List<ColumnWords>, Unread>
    ensures { Answers (items_at column_at cursor.old) result cursor.new }
{
    let mut columns = List::new(alloc);
    loop {
        let column = column(alloc, cursor)?;
        columns.push(column)?;
        if cursor.the_symbol(b",").is_none() {
            return Ok(columns);
        }
    }
}

// One or more names, with a comma between two.
fn names(alloc: Global, cursor: &mut Cursor<'_>) -> Result<List<Name>, Unread>
    ensures { Answers (items_at a_word cursor.old) result cursor.new }
{
    let mut names = List::new(alloc);
    loop {
        let name = cursor.word().ok_or(Unread::Strange)?;
        names.push(Name::from_slice(alloc, name)?)?;
        if cursor.the_symbol(b",").is_none() {
            return Ok(names);
        }
    }
}

#[tactic(auto, unfolding(crate::specs::Reading::table_at))]
fn table(alloc: Global, cursor: &mut Cursor<'_>) -> Result<TableWords, Unread>
    ensures { Answers (table_at cursor.old) result cursor.new }
{
    let name = cursor.word().ok_or(Unread::Strange)?;
    cursor.the_word(b"at").ok_or(Unread::Strange)?;
    let site = cursor.word().ok_or(Unread::Strange)?;
    cursor.the_word(b"rows").ok_or(Unread::Strange)?;
    let rows = cursor.number().ok_or(Unread::Strange)?;
    cursor.the_word(b"pages").ok_or(Unread::Strange)?;
    let pages = cursor.number().ok_or(Unread::Strange)?;
    cursor.the_word(b"file").ok_or(Unread::Strange)?;
    let file = cursor.text().ok_or(Unread::Strange)?;
    cursor.the_symbol(b"(").ok_or(Unread::Strange)?;
    let columns = columns(alloc, cursor)?;
    cursor.the_symbol(b")").ok_or(Unread::Strange)?;
    Ok(TableWords {
        name: Name::from_slice(alloc, name)?,
        site: Name::from_slice(alloc, site)?,
        rows,
        pages,
        file: Bytes::from_vec(text_bytes(alloc, file)?),
        columns,
    })
}

#[tactic(auto, unfolding(crate::specs::Reading::index_at))]
fn index(alloc: Global, cursor: &mut Cursor<'_>) -> Result<IndexWords, Unread>
    ensures { Answers (index_at cursor.old) result cursor.new }
{
    let name = cursor.word().ok_or(Unread::Strange)?;
    cursor.the_word(b"on").ok_or(Unread::Strange)?;
    let table = cursor.word().ok_or(Unread::Strange)?;
    cursor.the_symbol(b"(").ok_or(Unread::Strange)?;
    let columns = names(alloc, cursor)?;
    cursor.the_symbol(b")").ok_or(Unread::Strange)?;
    cursor.the_word(b"pages").ok_or(Unread::Strange)?;
    let pages = cursor.number().ok_or(Unread::Strange)?;
    Ok(IndexWords {
        name: Name::from_slice(alloc, name)?,
        table: Name::from_slice(alloc, table)?,
        columns,
        pages,
    })
}

// The statement at the front of the lexemes.
#[tactic(auto, unfolding(crate::specs::Reading::statement_at))]
fn front(alloc: Global, cursor: &mut Cursor<'_>) -> Result<StatementWords, Unread>
    ensures { Answers (statement_at cursor.old) result cursor.new }
{
    match cursor.word().ok_or(Unread::Strange)? {
        b"site" => Ok(StatementWords::Site(site(alloc, cursor)?)),
        b"table" => Ok(StatementWords::Table(table(alloc, cursor)?)),
        b"index" => Ok(StatementWords::Index(index(alloc, cursor)?)),
        _ => Err(Unread::Strange),
    }
}

/// What a statement says, from its tokens.
pub fn read_statement(
    alloc: Global,
    source: &[u8],
    statement: &Statement<'_>,
) -> Result<StatementWords, Unread>
    requires { AreTokensOf source.now statement.now.tokens.now }
    ensures { StatementRead (part_said source.now (part_of statement.now)) result }
{
    if !statement.ended {
        return Err(Unread::Strange);
    }
    let mut cursor = Cursor::new(source, statement.tokens);
    let words = front(alloc, &mut cursor)?;
    if cursor.is_done() {
        Ok(words)
    } else {
        Err(Unread::Strange)
    }
}
