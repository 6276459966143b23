// The words of a formula.

ghost use Rattle.std.specs.Prelude.{◌≡◌, List, map, IfOk};
ghost use Rattle.sb_text.specs.Reading.{IsTokenOf};
ghost use Rattle.spelling.specs.Cursors.{AreTokensOf};
ghost use Rattle.spelling.specs.Lexemes.{lexeme_of, lexemes_of};
ghost use Rattle.spelling.specs.Names.{found_in};
ghost use Rattle.star_model.specs.declared.formula.Var.{Var};
ghost use Rattle.cost_formula.specs.Formulas.{formula_word, formula_symbols, formula_keywords, variable_rows, cost_variables, select_variables};
ghost use Rattle.cost_formula.specs.Vocabularies.{variables_of};

use crate::formula_word::FormulaWord;
use sb_text::{Token, TokenKind};
use spelling::{Cursor, found_in};
use star_model::formula::{Test, Var};
use std::alloc::{AllocError, Global};
use std::slice;

/// Which variables may be named.
#[derive(Clone, Copy)]
pub enum Vocabulary {
    Cost,
    Selectivity,
}

const COST_WORDS: [(&[u8], FormulaWord); 21] = [
    (b"cost1", FormulaWord::Variable(Var::Cost1)),
    (b"rescan1", FormulaWord::Variable(Var::Rescan1)),
    (b"card1", FormulaWord::Variable(Var::Card1)),
    (b"width1", FormulaWord::Variable(Var::Width1)),
    (b"cost2", FormulaWord::Variable(Var::Cost2)),
    (b"rescan2", FormulaWord::Variable(Var::Rescan2)),
    (b"card2", FormulaWord::Variable(Var::Card2)),
    (b"width2", FormulaWord::Variable(Var::Width2)),
    (b"card", FormulaWord::Variable(Var::Card)),
    (b"width", FormulaWord::Variable(Var::Width)),
    (b"rows", FormulaWord::Variable(Var::Rows)),
    (b"pages", FormulaWord::Variable(Var::Pages)),
    (b"preds", FormulaWord::Variable(Var::Preds)),
    (b"cpu", FormulaWord::Variable(Var::Cpu)),
    (b"net", FormulaWord::Variable(Var::Net)),
    (b"one", FormulaWord::Variable(Var::One)),
    (b"if", FormulaWord::If),
    (b"then", FormulaWord::Then),
    (b"else", FormulaWord::Else),
    (b"min", FormulaWord::Min),
    (b"max", FormulaWord::Max),
];

const SELECTIVITY_WORDS: [(&[u8], FormulaWord); 9] = [
    (b"distinct1", FormulaWord::Variable(Var::Distinct1)),
    (b"rows1", FormulaWord::Variable(Var::Rows1)),
    (b"distinct2", FormulaWord::Variable(Var::Distinct2)),
    (b"rows2", FormulaWord::Variable(Var::Rows2)),
    (b"if", FormulaWord::If),
    (b"then", FormulaWord::Then),
    (b"else", FormulaWord::Else),
    (b"min", FormulaWord::Min),
    (b"max", FormulaWord::Max),
];

const SYMBOLS: [(&[u8], FormulaWord); 10] = [
    (b"<", FormulaWord::Test(Test::Lt)),
    (b"<=", FormulaWord::Test(Test::Le)),
    (b"=", FormulaWord::Test(Test::Eq)),
    (b"+", FormulaWord::Plus),
    (b"-", FormulaWord::Minus),
    (b"*", FormulaWord::Times),
    (b"/", FormulaWord::Over),
    (b"(", FormulaWord::Open),
    (b")", FormulaWord::Close),
    (b",", FormulaWord::Comma),
];

// What a word stands for in a cost formula.
fn cost_word(bytes: &[u8]) -> FormulaWord
    ensures { result ≡ found_in FormulaWord.Other (variable_rows cost_variables formula_keywords)
        bytes.now }
{
    found_in(&COST_WORDS, bytes, FormulaWord::Other)
}

// What a word stands for in a formula of a selectivity.
fn selectivity_word(bytes: &[u8]) -> FormulaWord
    ensures { result ≡ found_in FormulaWord.Other (variable_rows select_variables formula_keywords)
        bytes.now }
{
    found_in(&SELECTIVITY_WORDS, bytes, FormulaWord::Other)
}

// What a word stands for.
fn named(vocabulary: Vocabulary, bytes: &[u8]) -> FormulaWord
    ensures { result ≡ found_in FormulaWord.Other
        (variable_rows (variables_of vocabulary) formula_keywords) bytes.now }
{
    match vocabulary {
        Vocabulary::Cost => cost_word(bytes),
        Vocabulary::Selectivity => selectivity_word(bytes),
    }
}

// What a symbol stands for.
fn symbol(bytes: &[u8]) -> FormulaWord
    ensures { result ≡ found_in FormulaWord.Other formula_symbols bytes.now }
{
    found_in(&SYMBOLS, bytes, FormulaWord::Other)
}

// What a number stands for.
#[tactic(auto, unfolding(crate::specs::Formulas::formula_word))]
fn number(source: &[u8], token: &Token) -> FormulaWord
    requires token { IsTokenOf source.now token.now }
    requires number { token.now.kind ≡ TokenKind.Number }
    ensures { (variables : List Var) → result
        ≡ formula_word variables (lexeme_of source.now token.now) }
{
    let mut cursor = Cursor::new(source, slice::from_ref(token));
    let Some(number) = cursor.number() else {
        unreachable!()
    };
    FormulaWord::Number(number)
}

// What a token stands for in a formula.
#[tactic(auto, unfolding(crate::specs::Formulas::formula_word))]
fn word_of(vocabulary: Vocabulary, source: &[u8], token: &Token) -> FormulaWord
    requires { IsTokenOf source.now token.now }
    ensures { result ≡ formula_word (variables_of vocabulary) (lexeme_of source.now token.now) }
{
    let bytes = &source[token.start as usize..token.end as usize];
    match token.kind {
        TokenKind::Word => named(vocabulary, bytes),
        TokenKind::Number => number(source, token),
        TokenKind::Text => FormulaWord::Other,
        TokenKind::Symbol => symbol(bytes),
    }
}

/// What the tokens stand for in a formula that may name these variables.
pub fn words_of(
    alloc: Global,
    vocabulary: Vocabulary,
    source: &[u8],
    tokens: &[Token],
) -> Result<Vec<FormulaWord>, AllocError>
    requires { AreTokensOf source.now tokens.now }
    ensures { IfOk result (λ words. words.items
        ≡ map (formula_word (variables_of vocabulary)) (lexemes_of source.now tokens.now)) }
{
    let mut words = Vec::new(alloc);
    for token in tokens {
        words.push(word_of(vocabulary, source, token))?;
    }
    Ok(words)
}
