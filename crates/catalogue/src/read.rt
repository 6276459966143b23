// Reading a catalogue.
ghost use Rattle.std.specs.Prelude.{◌≤◌, ◌<◌, ◌^◌, length, map};
ghost use Rattle.sb_text.specs.Limits.{most_text_bytes};
ghost use Rattle.catalogue.specs.Words.{said};
ghost use Rattle.catalogue.specs.Faults.{ReadsCatalogue};
ghost use Rattle.catalogue.specs.Judged.{StatementsJudged};

use crate::CatFault;
use crate::limits::first_limit;
use crate::names::{first_twice, first_unknown};
use crate::resolve::resolved;
use crate::statements::read_statements;
use crate::words::StatementWords;
use sb_text::tokens;
use star_model::catalogue::Catalogue;
use std::alloc::Global;

// Judges names over all statements, then repeated definitions over all, then limits over all.
fn judge(alloc: Global, statements: &[StatementWords]) -> Result<(), CatFault>
    requires { length statements.now < 2 ^ 32 }
    ensures { StatementsJudged (map said statements.now) result }
{
    if let Some(statement) = first_unknown(alloc, statements)? {
        return Err(CatFault::Unknown(statement));
    }
    if let Some(statement) = first_twice(alloc, statements)? {
        return Err(CatFault::Twice(statement));
    }
    match first_limit(statements) {
        Some((statement, what)) => Err(CatFault::Limit(statement, what)),
        None => Ok(()),
    }
}

/// The catalogue that a text spells, or why it is refused. Each kind of fault is judged over the
/// whole text before the next, and within a kind the first statement is told.
pub fn read_catalogue(alloc: Global, source: &[u8]) -> Result<Catalogue, CatFault>
    requires { length source.now ≤ most_text_bytes }
    ensures { ReadsCatalogue source.now result }
{
    let tokens = tokens(alloc, source)?;
    let statements = read_statements(alloc, source, tokens.as_slice())?;
    judge(alloc, statements.as_slice())?;
    Ok(resolved(alloc, statements.as_slice())?)
}
