// The version of a rule file.
ghost use Rattle.std.specs.Prelude.{◌≡◌};
ghost use Rattle.sb_text.specs.Reading.{IsTokenOf};
ghost use Rattle.sb_text.specs.Statements.{parts, part_of};
ghost use Rattle.spelling.specs.Cursors.{AreTokensOf, part_said};
ghost use Rattle.spelling.specs.Lexemes.{lexeme_of, lexemes_of};
ghost use Rattle.star_syntax.specs.Versions.{is_version, is_two, says_version, is_version_statement, version_by};

use sb_text::{Statement, Token, TokenKind};
use spelling::number_of;

fn is_version(source: &[u8], token: &Token) -> bool
    requires { IsTokenOf source.now token.now }
    ensures { result ≡ is_version (lexeme_of source.now token.now) }
{
    match token.kind {
        TokenKind::Word => {
            &source[token.start as usize..token.end as usize] == b"version".as_slice()
        }
        TokenKind::Number => false,
        TokenKind::Text => false,
        TokenKind::Symbol => false,
    }
}

fn is_two(source: &[u8], token: &Token) -> bool
    requires { IsTokenOf source.now token.now }
    ensures { result ≡ is_two (lexeme_of source.now token.now) }
{
    match token.kind {
        TokenKind::Number => number_of(source, token) == 2,
        TokenKind::Word => false,
        TokenKind::Text => false,
        TokenKind::Symbol => false,
    }
}

// Whether these are the lexemes that say version 2.
fn says_version(source: &[u8], tokens: &[Token]) -> bool
    requires { AreTokensOf source.now tokens.now }
    ensures { result ≡ says_version (lexemes_of source.now tokens.now) }
{
    match tokens {
        [word, number] => is_version(source, word) && is_two(source, number),
        _ => false,
    }
}

/// Whether these are the lexemes of the statement that says version 2, in a rule file of this
/// version and with this number.
pub fn is_version_statement(source: &[u8], tokens: &[Token], number: u32, version: u8) -> bool
    requires { AreTokensOf source.now tokens.now }
    ensures { result ≡ is_version_statement version number (lexemes_of source.now tokens.now) }
{
    number == 1 && version == 2 && says_version(source, tokens)
}

/// The version of the rule files that begin with this statement.
pub fn version_by(source: &[u8], first: &Statement<'_>) -> u8
    requires { AreTokensOf source.now first.now.tokens.now }
    ensures { result ≡ version_by (part_said source.now (part_of first.now)) }
{
    if first.ended && says_version(source, first.tokens) {
        2
    } else {
        1
    }
}
