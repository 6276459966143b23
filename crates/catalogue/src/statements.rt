// Reading all statements of a text.
ghost use Rattle.std.specs.Prelude.{◌≤◌, length};
ghost use Rattle.sb_text.specs.Limits.{most_text_bytes};
ghost use Rattle.sb_text.specs.Refusal.{AreTokens};
ghost use Rattle.catalogue.specs.Statements.{StatementsRead};

use crate::CatFault;
use crate::statement::read_statement;
use crate::words::StatementWords;
use sb_text::{Token, statements};
use spelling::Unread;
use star_model::lists::List;
use std::alloc::Global;

/// What the statements of a text say, one after the other, from its tokens. The answer is a fault
/// of the kind `Syntax` or `Memory` otherwise.
pub fn read_statements(
    alloc: Global,
    source: &[u8],
    tokens: &[Token],
) -> Result<List<StatementWords>, CatFault>
    requires size { length source.now ≤ most_text_bytes }
    requires tokens { AreTokens source.now tokens.now }
    ensures { StatementsRead source.now result }
{
    let mut list = List::new(alloc);
    let mut number = 1;
    for statement in statements(tokens) {
        match read_statement(alloc, source, &statement) {
            Ok(words) => list.push(words)?,
            Err(Unread::Strange) => return Err(CatFault::Syntax(number)),
            Err(Unread::Memory) => return Err(CatFault::Memory),
        }
        number += 1;
    }
    Ok(list)
}
