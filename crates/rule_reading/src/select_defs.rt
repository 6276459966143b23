// Statements that define selectivities.
ghost use Rattle.std.specs.Prelude.{◌≡◌, IfOk, IfSome, IfNone, option_map};
ghost use Rattle.std.specs.List.{position_or_len};
ghost use Rattle.sb_text.specs.Reading.{IsTokenOf};
ghost use Rattle.spelling.specs.Reading.{Reads};
ghost use Rattle.spelling.specs.Cursors.{AreTokensOf};
ghost use Rattle.spelling.specs.Lexemes.{lexeme_of, lexemes_of};
ghost use Rattle.rule_grammar.specs.SelectHeads.{select_head_at, is_per, parted_at_per};
ghost use Rattle.rule_grammar.specs.Rules.{SpellsSelectDef};
ghost use Rattle.star_model.specs.declared.rules.SelectDef.{SelectDef};

use cost_formula::read_select;
use sb_text::{Token, TokenKind};
use spelling::Cursor;
use star_model::flavours::class_of;
use star_model::rules::{Class, SelectDef};
use std::alloc::{AllocError, Global};

// The class at the head of the statement.
#[tactic(auto, unfolding(rule_grammar::specs::SelectHeads::select_head_at))]
fn head(cursor: &mut Cursor<'_>) -> Option<Class>
    ensures { Reads (select_head_at cursor.old) result cursor.new }
{
    cursor.the_word(b"selectivity")?;
    let class = class_of(cursor.word()?)?;
    cursor.the_symbol(b"=")?;
    Some(class)
}

fn is_per(source: &[u8], token: &Token) -> bool
    requires { IsTokenOf source.now token.now }
    ensures { result ≡ is_per (lexeme_of source.now token.now) }
{
    match token.kind {
        TokenKind::Word => &source[token.start as usize..token.end as usize] == b"per".as_slice(),
        TokenKind::Number => false,
        TokenKind::Text => false,
        TokenKind::Symbol => false,
    }
}

// How many tokens stand before the first `per`.
fn place_of_per(source: &[u8], tokens: &[Token]) -> usize
    requires { AreTokensOf source.now tokens.now }
    ensures { result ≡ position_or_len is_per (lexemes_of source.now tokens.now) }
{
    let mut left = tokens;
    while let [token, rest @ ..] = left {
        if is_per(source, token) {
            return tokens.len() - left.len();
        }
        left = rest;
    }
    tokens.len()
}

// The tokens before the first `per`, and those behind it.
fn parted_at_per<'a>(source: &[u8], tokens: &'a [Token]) -> Option<(&'a [Token], &'a [Token])>
    requires { AreTokensOf source.now tokens.now }
    ensures parts { option_map (λ parts. (
      lexemes_of source.now parts.0.now,
      lexemes_of source.now
          parts.1.now,
    )) result ≡ parted_at_per (lexemes_of source.now tokens.now) }
    ensures tokens { IfSome result (λ parts. AreTokensOf source.now parts.0.now
        × AreTokensOf source.now parts.1.now) }
{
    let (num, behind) = tokens.split_at(place_of_per(source, tokens));
    let [_, den @ ..] = behind else {
        return None;
    };
    Some((num, den))
}

/// The selectivity that the statement with this number defines in a rule file of version 2, from
/// its tokens, or `None` where it defines none.
pub fn read_select_def(
    alloc: Global,
    source: &[u8],
    tokens: &[Token],
    number: u32,
) -> Result<Option<SelectDef>, AllocError>
    requires { AreTokensOf source.now tokens.now }
    ensures some { IfOk result (λ o. IfSome o
        (λ d. SpellsSelectDef 2 number (lexemes_of source.now tokens.now) d)) }
    ensures none { IfOk result (λ o. IfNone o
        ((d : SelectDef) → SpellsSelectDef 2 number (lexemes_of source.now tokens.now) d → ⊥)) }
{
    let [_, _, _, behind @ ..] = tokens else {
        return Ok(None);
    };
    let Some(class) = head(&mut Cursor::new(source, tokens)) else {
        return Ok(None);
    };
    let Some((num, den)) = parted_at_per(source, behind) else {
        return Ok(None);
    };
    let Some(num) = read_select(alloc, num, source)? else {
        return Ok(None);
    };
    let Some(den) = read_select(alloc, den, source)? else {
        return Ok(None);
    };
    Ok(Some(SelectDef {
        statement: number,
        class,
        num,
        den,
    }))
}
