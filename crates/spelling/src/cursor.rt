// Reading the lexemes of a statement from the front.
ghost use Rattle.std.specs.Prelude.{◌≡◌, option_map, option_copied, IsTrue, ◌↔◌, [], ◌<◌, length, drop, IfNone, IfOk};
ghost use Rattle.spelling.specs.Lexemes.{undoubled, lexemes_of};
ghost use Rattle.spelling.specs.Cursors.{AreTokensOf, IsMachineNumber};
ghost use Rattle.std.specs.Str.Parse.{digits_value};
ghost use Rattle.sb_text.specs.Tokens.{text_of};
ghost use Rattle.sb_text.specs.Reading.{IsTokenOf};
ghost use Rattle.spelling.specs.Reading.{Reads, the_word, the_symbol, a_word, a_number, a_text};

use sb_text::{Token, TokenKind};
use std::alloc::{AllocError, Global};
use std::marker::Model;

/// The lexemes of a statement that are still to be read. Where a method answers `None`, the next
/// lexeme is no such one.
#[derive(Drop)]
pub struct Cursor<'a> {
    source: &'a [u8],
    left: &'a [Token],
}

impl<'a> Model for Cursor<'a> {
    ghost use Rattle.std.specs.Prelude.{List};
    ghost use Rattle.spelling.specs.Lexemes.{Lexeme, lexemes_of};
    ghost use Rattle.spelling.specs.Cursors.{AreTokensOf};

    ghost Value = { List Lexeme };

    ghost view = { λ c. lexemes_of c.source.now c.left.now };

    ghost invariant = { λ c. AreTokensOf c.source.now c.left.now };
}

fn behind_first(bytes: &[u8]) -> &[u8]
    requires { 0 < length bytes.now }
    ensures { result.now ≡ drop 1 bytes.now }
{
    &bytes[1..]
}

// The number that the digits write.
fn value_of(digits: &[u8]) -> u64
    requires { IsMachineNumber digits.now }
    ensures { result ≡ digits_value 10 digits.now }
{
    let mut value = 0;
    for digit in digits {
        value = value * 10 + u64::from(*digit - b'0');
    }
    value
}

/// The number that a token of the source says.
pub fn number_of(source: &[u8], token: &Token) -> u64
    requires token { IsTokenOf source.now token.now }
    requires number { token.now.kind ≡ TokenKind.Number }
    ensures { result ≡ digits_value 10 (text_of source.now token.now) }
{
    value_of(&source[token.start as usize..token.end as usize])
}

impl<'a> Cursor<'a> {
    /// All lexemes of these tokens of the source.
    pub fn new(source: &'a [u8], tokens: &'a [Token]) -> Cursor<'a>
        requires { AreTokensOf source.now tokens.now }
        ensures { result ≡ lexemes_of source.now tokens.now }
    {
        Cursor {
            source,
            left: tokens,
        }
    }

    /// Whether nothing is left.
    pub fn is_done(&self) -> bool
        ensures { IsTrue result ↔ (self.now ≡ []) }
    {
        self.left.is_empty()
    }

    /// Passes this word. Where it isn't next, nothing is passed.
    pub fn the_word(&mut self, wanted: &[u8]) -> Option<()>
        ensures reads { Reads (the_word wanted.now self.old) result self.new }
        ensures stays { IfNone result (self.new ≡ self.old) }
    {
        match self.left {
            [token, rest @ ..] if token.kind == TokenKind::Word => {
                let bytes = &self.source[token.start as usize..token.end as usize];
                if bytes != wanted {
                    return None;
                }
                self.left = rest;
                Some(())
            }
            _ => None,
        }
    }

    /// Passes this symbol. Where it isn't next, nothing is passed.
    pub fn the_symbol(&mut self, wanted: &[u8]) -> Option<()>
        ensures reads { Reads (the_symbol wanted.now self.old) result self.new }
        ensures stays { IfNone result (self.new ≡ self.old) }
    {
        match self.left {
            [token, rest @ ..] if token.kind == TokenKind::Symbol => {
                let bytes = &self.source[token.start as usize..token.end as usize];
                if bytes != wanted {
                    return None;
                }
                self.left = rest;
                Some(())
            }
            _ => None,
        }
    }

    /// Passes the next word. Where none is next, nothing is passed.
    pub fn word(&mut self) -> Option<&'a [u8]>
        ensures reads { Reads (a_word self.old) (option_copied result) self.new }
        ensures stays { IfNone result (self.new ≡ self.old) }
    {
        match self.left {
            [token, rest @ ..] if token.kind == TokenKind::Word => {
                let bytes = &self.source[token.start as usize..token.end as usize];
                self.left = rest;
                Some(bytes)
            }
            _ => None,
        }
    }

    /// The next word, which isn't passed.
    pub fn next_word(&self) -> Option<&'a [u8]>
        ensures { option_copied result ≡ option_map (λ found. found.0) (a_word self.now) }
    {
        match self.left {
            [token, ..] if token.kind == TokenKind::Word => {
                Some(&self.source[token.start as usize..token.end as usize])
            }
            _ => None,
        }
    }

    /// Passes the next number. Where none is next, nothing is passed.
    pub fn number(&mut self) -> Option<u64>
        ensures reads { Reads (a_number self.old) result self.new }
        ensures stays { IfNone result (self.new ≡ self.old) }
    {
        match self.left {
            [token, rest @ ..] if token.kind == TokenKind::Number => {
                let number = number_of(self.source, token);
                self.left = rest;
                Some(number)
            }
            _ => None,
        }
    }

    /// Passes the next text, which is as it is written behind its first quote. Where none is next,
    /// nothing is passed.
    pub fn text(&mut self) -> Option<&'a [u8]>
        ensures reads { Reads (a_text self.old) (option_map undoubled (option_copied result))
            self.new }
        ensures stays { IfNone result (self.new ≡ self.old) }
    {
        match self.left {
            [token, rest @ ..] if token.kind == TokenKind::Text => {
                let bytes = &self.source[token.start as usize..token.end as usize];
                self.left = rest;
                Some(behind_first(bytes))
            }
            _ => None,
        }
    }
}

/// What a text says that is written so behind its first quote: the bytes with each doubled quote as
/// one.
pub fn text_bytes(alloc: Global, written: &[u8]) -> Result<Vec<u8>, AllocError>
    ensures { IfOk result (λ bytes. bytes.items ≡ undoubled written.now) }
{
    let mut bytes = Vec::new(alloc);
    let mut at = 0;
    while at + 1 < written.len() {
        bytes.push(written[at])?;
        if written[at] == b'\'' {
            at += 2;
        } else {
            at += 1;
        }
    }
    Ok(bytes)
}
