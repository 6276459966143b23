// Statements that define formulas.
ghost use Rattle.std.specs.Prelude.{◌≡◌, IfOk, IfSome, IfNone};
ghost use Rattle.spelling.specs.Reading.{Reads};
ghost use Rattle.spelling.specs.Cursors.{AreTokensOf};
ghost use Rattle.spelling.specs.Lexemes.{lexemes_of};
ghost use Rattle.rule_grammar.specs.FormulaHeads.{which_of, formula_head_at};
ghost use Rattle.rule_grammar.specs.Rules.{SpellsFormulaDef};
ghost use Rattle.star_model.specs.declared.rules.FormulaDef.{FormulaDef};
ghost use Rattle.rule_reading.specs.FormulaDefs.{head_of};

use cost_formula::read_formula;
use sb_text::Token;
use spelling::Cursor;
use star_model::flavours::flavour_in;
use star_model::rules::{Flavour, FormulaDef, Which};
use std::alloc::{AllocError, Global};

#[tactic(auto, unfolding(rule_grammar::specs::FormulaHeads::which_of))]
fn which_of(word: &[u8]) -> Option<Which>
    ensures { result ≡ which_of word.now }
{
    if word == b"cost".as_slice() {
        Some(Which::Cost)
    } else if word == b"rescan".as_slice() {
        Some(Which::Rescan)
    } else {
        None
    }
}

// The cost and the operator at the head of the statement.
#[tactic(auto, unfolding(rule_grammar::specs::FormulaHeads::formula_head_at))]
fn head(version: u8, cursor: &mut Cursor<'_>) -> Option<(Which, Flavour)>
    ensures { Reads (formula_head_at version cursor.old) (head_of result) cursor.new }
{
    let which = which_of(cursor.word()?)?;
    let flavour = flavour_in(version, cursor.word()?)?;
    cursor.the_symbol(b"=")?;
    Some((which, flavour))
}

/// The formula that the statement with this number defines in a rule file of this version, from its
/// tokens, or `None` where it defines none.
pub fn read_formula_def(
    alloc: Global,
    source: &[u8],
    tokens: &[Token],
    number: u32,
    version: u8,
) -> Result<Option<FormulaDef>, AllocError>
    requires { AreTokensOf source.now tokens.now }
    ensures some { IfOk result (λ o. IfSome o
        (λ d. SpellsFormulaDef version number (lexemes_of source.now tokens.now) d)) }
    ensures none { IfOk result (λ o. IfNone o
        ((d : FormulaDef) → SpellsFormulaDef version number (lexemes_of source.now tokens.now) d
        → ⊥)) }
{
    let [_, _, _, behind @ ..] = tokens else {
        return Ok(None);
    };
    let Some((which, flavour)) = head(version, &mut Cursor::new(source, tokens)) else {
        return Ok(None);
    };
    match read_formula(alloc, behind, source)? {
        Some(formula) => Ok(Some(FormulaDef {
            statement: number,
            flavour,
            which,
            formula,
        })),
        None => Ok(None),
    }
}
