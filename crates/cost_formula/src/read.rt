// Reading a formula from tokens.

ghost use Rattle.std.specs.Prelude.{◌+◌, length, IfOk, IfSome, IfNone};
ghost use Rattle.spelling.specs.Cursors.{AreTokensOf};
ghost use Rattle.spelling.specs.Lexemes.{lexemes_of};
ghost use Rattle.cost_formula.specs.Formulas.{SpellsIn, SpellsFormula, SpellsSelect};
ghost use Rattle.cost_formula.specs.Vocabularies.{variables_of};
ghost use Rattle.cost_formula.specs.FormulaGrammar.{Spells, Whole};
ghost use Rattle.cost_formula.specs.FormulaReading.{whole_at};
ghost use Rattle.star_model.specs.declared.formula.Formula.{Formula};
ghost use Rattle.cost_formula.specs.Reading.{Reads, IsAllOf};

use crate::cursor::{Stop, WordCursor};
use crate::formula_word::FormulaWord;
use crate::rules::Rules;
use crate::words::{Vocabulary, words_of};
use sb_text::Token;
use star_model::formula::Formula;
use std::alloc::{AllocError, Global};

// The formula at the front of the words, where at most `depth` formulas are open inside one
// another.
fn whole(alloc: Global, words: &mut WordCursor<'_>, depth: usize) -> Result<Formula, Stop>
    ensures { Reads (whole_at depth words.old.left.now) result words.new.left.now }
{
    if depth == 0 {
        return Err(Stop::Unspelled);
    }
    Rules {
        alloc,
        depth: depth - 1,
        inner: whole,
    }
    .whole(words)
}

fn read_all(alloc: Global, words: &[FormulaWord]) -> Result<Option<Formula>, AllocError>
    ensures { IfOk result (IsAllOf (whole_at (length words.now + 1) words.now)) }
{
    let mut cursor = WordCursor { left: words };
    match whole(alloc, &mut cursor, words.len() + 1) {
        Ok(formula) => {
            if cursor.left.is_empty() {
                Ok(Some(formula))
            } else {
                Ok(None)
            }
        }
        Err(Stop::Unspelled) => Ok(None),
        Err(Stop::Memory) => Err(AllocError),
    }
}

// The formula that the words spell.
fn read_words(alloc: Global, words: &[FormulaWord]) -> Result<Option<Formula>, AllocError>
    ensures some { IfOk result (λ o. IfSome o (λ f. Spells Whole words.now f)) }
    ensures none { IfOk result (λ o. IfNone o ((f : Formula) → Spells Whole words.now f → ⊥)) }
{
    read_all(alloc, words)
}

// The formula over these variables that the tokens spell.
fn read_over(
    alloc: Global,
    vocabulary: Vocabulary,
    tokens: &[Token],
    source: &[u8],
) -> Result<Option<Formula>, AllocError>
    requires { AreTokensOf source.now tokens.now }
    ensures some { IfOk result (λ o. IfSome o
        (λ f. SpellsIn (variables_of vocabulary) (lexemes_of source.now tokens.now) f)) }
    ensures none { IfOk result (λ o. IfNone o
        ((f : Formula) → SpellsIn (variables_of vocabulary) (lexemes_of source.now tokens.now) f
        → ⊥)) }
{
    let words = words_of(alloc, vocabulary, source, tokens)?;
    read_words(alloc, words.as_slice())
}

/// The cost formula that these tokens of the source spell, or `None` where they spell none.
///
/// What stands in brackets and the branches of an `if` are read by recursion. The tokens of one
/// statement that `sb_text::tokens` gave nest brackets at most 32 deep, and they are at most 4,096,
/// in which at most 585 `if` stand inside one another.
pub fn read_formula(
    alloc: Global,
    tokens: &[Token],
    source: &[u8],
) -> Result<Option<Formula>, AllocError>
    requires { AreTokensOf source.now tokens.now }
    ensures some { IfOk result (λ o. IfSome o
        (λ f. SpellsFormula (lexemes_of source.now tokens.now) f)) }
    ensures none { IfOk result (λ o. IfNone o
        ((f : Formula) → SpellsFormula (lexemes_of source.now tokens.now) f → ⊥)) }
{
    read_over(alloc, Vocabulary::Cost, tokens, source)
}

/// The formula of a selectivity that these tokens of the source spell, or `None` where they spell
/// none. It is read as a cost formula is.
pub fn read_select(
    alloc: Global,
    tokens: &[Token],
    source: &[u8],
) -> Result<Option<Formula>, AllocError>
    requires { AreTokensOf source.now tokens.now }
    ensures some { IfOk result (λ o. IfSome o
        (λ f. SpellsSelect (lexemes_of source.now tokens.now) f)) }
    ensures none { IfOk result (λ o. IfNone o
        ((f : Formula) → SpellsSelect (lexemes_of source.now tokens.now) f → ⊥)) }
{
    read_over(alloc, Vocabulary::Selectivity, tokens, source)
}
