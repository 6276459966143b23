// Numbers and words among the lexemes of a statement that go beyond their limits.
ghost use Rattle.std.specs.Prelude.{◌≡◌};
ghost use Rattle.std.specs.List.{list_any};
ghost use Rattle.sb_text.specs.Reading.{IsTokenOf};
ghost use Rattle.spelling.specs.Cursors.{AreTokensOf};
ghost use Rattle.spelling.specs.Lexemes.{lexeme_of, lexemes_of};
ghost use Rattle.star_syntax.specs.LimitTests.{is_great, is_long};

use sb_text::{Token, TokenKind};
use spelling::number_of;

const GREATEST_NUMBER: u64 = 1_000_000_000_000_000_000;

const LONGEST_NAME: usize = 64;

fn is_great(source: &[u8], token: &Token) -> bool
    requires { IsTokenOf source.now token.now }
    ensures { result ≡ is_great (lexeme_of source.now token.now) }
{
    match token.kind {
        TokenKind::Number => number_of(source, token) > GREATEST_NUMBER,
        TokenKind::Word => false,
        TokenKind::Text => false,
        TokenKind::Symbol => false,
    }
}

fn is_long(source: &[u8], token: &Token) -> bool
    requires { IsTokenOf source.now token.now }
    ensures { result ≡ is_long (lexeme_of source.now token.now) }
{
    match token.kind {
        TokenKind::Word => source[token.start as usize..token.end as usize].len() > LONGEST_NAME,
        TokenKind::Number => false,
        TokenKind::Text => false,
        TokenKind::Symbol => false,
    }
}

/// Whether a number over 10^18 is among the lexemes.
pub fn has_great_number(source: &[u8], tokens: &[Token]) -> bool
    requires { AreTokensOf source.now tokens.now }
    ensures { result ≡ list_any is_great (lexemes_of source.now tokens.now) }
{
    let mut left = tokens;
    while let [token, rest @ ..] = left {
        if is_great(source, token) {
            return true;
        }
        left = rest;
    }
    false
}

/// Whether a word of over 64 bytes is among the lexemes.
pub fn has_long_word(source: &[u8], tokens: &[Token]) -> bool
    requires { AreTokensOf source.now tokens.now }
    ensures { result ≡ list_any is_long (lexemes_of source.now tokens.now) }
{
    let mut left = tokens;
    while let [token, rest @ ..] = left {
        if is_long(source, token) {
            return true;
        }
        left = rest;
    }
    false
}
