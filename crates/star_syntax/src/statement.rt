// Reading a statement of a rule file.
ghost use Rattle.std.specs.Prelude.{IfOk, IfSome, IfNone};
ghost use Rattle.sb_text.specs.Statements.{part_of};
ghost use Rattle.spelling.specs.Cursors.{AreTokensOf, part_said};
ghost use Rattle.spelling.specs.Lexemes.{lexemes_of};
ghost use Rattle.rule_grammar.specs.Rules.{SpellsSelectDef};
ghost use Rattle.star_model.specs.declared.rules.SelectDef.{SelectDef};
ghost use Rattle.star_syntax.specs.Definitions.{DefinitionRead};

use crate::definition::Definition;
use crate::version::is_version_statement;
use rule_reading::{read_formula_def, read_select_def, read_star};
use sb_text::{Statement, Token};
use spelling::Unread;
use star_model::rules::SelectDef;
use std::alloc::{AllocError, Global};

// The selectivity that the statement with this number defines, which only rule files of version 2
// have.
fn read_select_in(
    alloc: Global,
    source: &[u8],
    tokens: &[Token],
    number: u32,
    version: u8,
) -> Result<Option<SelectDef>, AllocError>
    requires { AreTokensOf source.now tokens.now }
    ensures some { IfOk result (λ o. IfSome o
        (λ d. SpellsSelectDef version number (lexemes_of source.now tokens.now) d)) }
    ensures none { IfOk result (λ o. IfNone o
        ((d : SelectDef) → SpellsSelectDef version number (lexemes_of source.now tokens.now) d
        → ⊥)) }
{
    if version == 2 {
        read_select_def(alloc, source, tokens, number)
    } else {
        Ok(None)
    }
}

/// What the statement with this number defines in a rule file of this version, from its tokens.
pub fn read_definition(
    alloc: Global,
    source: &[u8],
    statement: &Statement<'_>,
    number: u32,
    version: u8,
) -> Result<Definition, Unread>
    requires { AreTokensOf source.now statement.now.tokens.now }
    ensures { DefinitionRead version number (part_said source.now (part_of statement.now)) result }
{
    let tokens = statement.tokens;
    if !statement.ended {
        return Err(Unread::Strange);
    }
    if is_version_statement(source, tokens, number, version) {
        return Ok(Definition::Version);
    }
    if let Some(definition) = read_select_in(alloc, source, tokens, number, version)? {
        return Ok(Definition::Select(definition));
    }
    if let Some(definition) = read_formula_def(alloc, source, tokens, number, version)? {
        return Ok(Definition::Formula(definition));
    }
    match read_star(alloc, source, tokens, number, version)? {
        Some(star) => Ok(Definition::Star(star)),
        None => Err(Unread::Strange),
    }
}
