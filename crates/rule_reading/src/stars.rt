// Reading the statement of a STAR.
ghost use Rattle.std.specs.Prelude.{◌≡◌, ◌+◌, IfOk};
ghost use Rattle.spelling.specs.Cursors.{AreTokensOf};
ghost use Rattle.spelling.specs.Lexemes.{lexemes_of};
ghost use Rattle.rule_grammar.specs.StarReading.{parameter_at, parameters_at, head_at, star_at, star_of};
ghost use Rattle.spelling.specs.Answers.{Answers};

use crate::alternatives::alternatives;
use crate::names::free_name;
use sb_text::Token;
use spelling::{Cursor, Unread};
use star_model::flavours::kind_of;
use star_model::lists::{List, Name};
use star_model::rules::{Param, StarDef};
use std::alloc::{AllocError, Global};

// A parameter and its kind.
#[tactic(auto, unfolding(rule_grammar::specs::StarReading::parameter_at, rule_grammar::specs::RuleWords::kind_at))]
fn parameter(alloc: Global, version: u8, cursor: &mut Cursor<'_>) -> Result<Param, Unread>
    ensures { Answers (parameter_at version cursor.old) result cursor.new }
{
    let name = free_name(alloc, version, cursor)?;
    let word = cursor.word().ok_or(Unread::Strange)?;
    let kind = kind_of(word).ok_or(Unread::Strange)?;
    Ok(Param { name, kind })
}

// Parameters with commas between.
#[tactic(auto, unfolding(rule_grammar::specs::StarReading::parameters_at))]
fn parameters(alloc: Global, version: u8, cursor: &mut Cursor<'_>) -> Result<List<Param>, Unread>
    ensures { Answers (parameters_at version cursor.old) result cursor.new }
{
    let mut parameters = List::new(alloc);
    loop {
        let parameter = parameter(alloc, version, cursor)?;
        parameters.push(parameter)?;
        if cursor.the_symbol(b",").is_none() {
            return Ok(parameters);
        }
    }
}

// What stands before the alternatives: the name and the parameters.
#[tactic(auto, unfolding(rule_grammar::specs::StarReading::head_at))]
fn head(alloc: Global, version: u8, cursor: &mut Cursor<'_>) -> Result<(Name, List<Param>), Unread>
    ensures { Answers (head_at version cursor.old) result cursor.new }
{
    cursor.the_word(b"star").ok_or(Unread::Strange)?;
    let name = free_name(alloc, version, cursor)?;
    cursor.the_symbol(b"(").ok_or(Unread::Strange)?;
    let params = parameters(alloc, version, cursor)?;
    cursor.the_symbol(b")").ok_or(Unread::Strange)?;
    cursor.the_symbol(b"=").ok_or(Unread::Strange)?;
    Ok((name, params))
}

// The STAR at the front.
#[tactic(auto, unfolding(rule_grammar::specs::StarReading::star_at))]
fn star(
    alloc: Global,
    version: u8,
    cursor: &mut Cursor<'_>,
    statement: u32,
    depth: usize,
) -> Result<StarDef, Unread>
    ensures { Answers (star_at version statement depth cursor.old) result cursor.new }
{
    let (name, params) = head(alloc, version, cursor)?;
    let alternatives = alternatives(alloc, version, params.as_slice(), cursor, depth)?;
    Ok(StarDef {
        statement,
        name,
        params,
        alternatives,
    })
}

/// The STAR that these tokens of the source define in a rule file of this version, which are all of
/// the statement with this number;
/// `None` where they define none.
///
/// The recursion goes as deep as brackets nest: at most 32 in the tokens that `sb_text::tokens`
/// gives.
#[tactic(auto, unfolding(rule_grammar::specs::StarReading::star_of))]
pub fn read_star(
    alloc: Global,
    source: &[u8],
    tokens: &[Token],
    number: u32,
    version: u8,
) -> Result<Option<StarDef>, AllocError>
    requires { AreTokensOf source.now tokens.now }
    ensures { IfOk result (λ read. read ≡ star_of version number
        (lexemes_of source.now tokens.now)) }
{
    let mut cursor = Cursor::new(source, tokens);
    match star(alloc, version, &mut cursor, number, tokens.len() + 1) {
        Ok(star) => {
            if cursor.is_done() {
                Ok(Some(star))
            } else {
                Ok(None)
            }
        }
        Err(Unread::Strange) => Ok(None),
        Err(Unread::Memory) => Err(AllocError),
    }
}
