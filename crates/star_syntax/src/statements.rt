// The statements of a rule file, one after the other.
ghost use Rattle.std.specs.Prelude.{◌≡◌, ◌≤◌, length, OnOk};
ghost use Rattle.sb_text.specs.Limits.{most_text_bytes};
ghost use Rattle.sb_text.specs.Refusal.{AreTokens};
ghost use Rattle.sb_text.specs.Statements.{part_of};
ghost use Rattle.spelling.specs.Cursors.{AreTokensOf, part_said};
ghost use Rattle.spelling.specs.Lexemes.{lexemes_of};
ghost use Rattle.star_syntax.specs.Definitions.{defined, HasFewNodes};
ghost use Rattle.star_syntax.specs.Statements.{with_definition, StatementRead, StatementsRead, limit_so_far};
ghost use Rattle.star_syntax.specs.Versions.{version_of_text};

use crate::definition::Definition;
use crate::limits::limit_beyond;
use crate::statement::read_definition;
use crate::version::version_by;
use sb_text::{Statement, Token, statements};
use spelling::Unread;
use star_model::faults::{LimitKind, RuleFault};
use star_model::lists::List;
use star_model::rules::RuleFile;
use std::alloc::{AllocError, Global};

/// What the statements so far define.
#[derive(Drop)]
pub struct RulesSoFar {
    pub rules: RuleFile,
    /// The first statement that goes beyond a limit, with the first limit that it goes beyond. It
    /// is told only where all statements are understood.
    pub beyond: Option<(u32, LimitKind)>,
}

// Adds a definition at the end.
fn push(rules: &mut RuleFile, definition: Definition) -> Result<(), AllocError>
    ensures { OnOk result (rules.new ≡ with_definition rules.old (defined definition)) }
{
    match definition {
        Definition::Version => Ok(()),
        Definition::Select(definition) => rules.selects.push(definition),
        Definition::Formula(definition) => rules.formulas.push(definition),
        Definition::Star(star) => rules.stars.push(star),
    }
}

impl RulesSoFar {
    // The first limit that was gone beyond, where the statement with this number comes next.
    fn limit_with(
        &self,
        source: &[u8],
        tokens: &[Token],
        number: u32,
        definition: &Definition,
    ) -> Option<(u32, LimitKind)>
        requires tokens { AreTokensOf source.now tokens.now }
        requires nodes { HasFewNodes definition.now }
        ensures { result ≡ limit_so_far self.now number
            (record {
              lexemes = lexemes_of source.now tokens.now;
              defines = defined definition.now;
            }) }
    {
        match self.beyond {
            Some(found) => Some(found),
            None => {
                let stars = self.rules.stars.len();
                let what = limit_beyond(source, tokens, stars, definition)?;
                Some((number, what))
            }
        }
    }

    // Reads the statement with this number.
    fn read_statement(
        &mut self,
        alloc: Global,
        source: &[u8],
        statement: &Statement<'_>,
        number: u32,
    ) -> Result<(), Unread>
        requires { AreTokensOf source.now statement.now.tokens.now }
        ensures { StatementRead number (part_said source.now (part_of statement.now)) self.old
            result self.new }
    {
        let version = self.rules.version;
        let definition = read_definition(alloc, source, statement, number, version)?;
        self.beyond = self.limit_with(source, statement.tokens, number, &definition);
        push(&mut self.rules, definition)?;
        Ok(())
    }
}

// The version that the text of these tokens says.
fn said_version(source: &[u8], tokens: &[Token]) -> u8
    requires { AreTokens source.now tokens.now }
    ensures { result ≡ version_of_text source.now }
{
    match statements(tokens).next() {
        Some(first) => version_by(source, &first),
        None => 1,
    }
}

/// What the statements of a text define, from its tokens. The answer is a fault of the kind
/// `Syntax` or `Memory` otherwise.
pub fn read_statements(
    alloc: Global,
    source: &[u8],
    tokens: &[Token],
) -> Result<RulesSoFar, RuleFault>
    requires size { length source.now ≤ most_text_bytes }
    requires tokens { AreTokens source.now tokens.now }
    ensures { StatementsRead source.now result }
{
    let mut read = RulesSoFar {
        rules: RuleFile {
            version: said_version(source, tokens),
            selects: List::new(alloc),
            formulas: List::new(alloc),
            stars: List::new(alloc),
        },
        beyond: None,
    };
    let mut number = 1;
    for statement in statements(tokens) {
        match read.read_statement(alloc, source, &statement, number) {
            Ok(()) => number += 1,
            Err(Unread::Strange) => return Err(RuleFault::Syntax(number)),
            Err(Unread::Memory) => return Err(RuleFault::Memory),
        }
    }
    Ok(read)
}
