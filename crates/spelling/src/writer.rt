// Writing the lexemes of statements in canonical layout.

ghost use Rattle.std.specs.Prelude.{◌≡◌, ◌++◌, ◌∷◌, [], if◌then◌else◌, OnOk};
ghost use Rattle.spelling.specs.Lexemes.{Word, Number, Text, Symbol};
ghost use Rattle.sb_text.specs.Forms.{doubled};
ghost use Rattle.spelling.specs.Writing.{whole, put, ended};

use crate::Ending;
use itoa::Buffer;
use std::alloc::{AllocError, Global};
use std::marker::Model;

// The byte, twice if it is a quote.
fn push_byte(out: &mut Vec<u8>, byte: u8) -> Result<(), AllocError>
    ensures { OnOk result (out.new.items ≡ out.old.items ++ doubled (byte ∷ [])) }
{
    if byte == b'\'' {
        out.push(b'\'')?;
    }
    out.push(byte)?;
    Ok(())
}

// The bytes, with each quote doubled.
#[tactic(auto, using(crate::proofs::Doubling::doubling))]
fn push_doubled(out: &mut Vec<u8>, bytes: &[u8]) -> Result<(), AllocError>
    ensures { OnOk result (out.new.items ≡ out.old.items ++ doubled bytes.now) }
{
    for byte in bytes {
        push_byte(out, *byte)?;
    }
    Ok(())
}

/// A text that is written lexeme by lexeme, in canonical layout: the writer puts the spaces and the
/// ends of lines. Whether bytes have the form of a word or a symbol is the caller's to know.
///
/// Where a method answers an error, memory was wanting, and the text is of no use.
#[derive(Drop)]
pub struct Writer {
    text: Vec<u8>,
    ending: Ending,
}

impl Model for Writer {
    ghost use Rattle.spelling.specs.Writing.{Written};

    ghost Value = { Written };

    ghost view = { λ w. record { text = w.text.items; ending = w.ending } };
}

impl Writer {
    /// The empty text.
    pub fn new(alloc: Global) -> Writer
        ensures { result ≡ whole [] }
    {
        Writer {
            text: Vec::new(alloc),
            ending: Ending::Open,
        }
    }

    fn put(&mut self, hangs: bool, bytes: &[u8], ending: Ending) -> Result<(), AllocError>
        ensures { OnOk result (self.new ≡ record {
          text = self.old.text ++ ((if hangs then [] else 32 ∷ []) ++ bytes.now);
          ending =
              ending;
        }) }
    {
        if !hangs {
            self.text.push(b' ')?;
        }
        self.text.extend_from_slice(bytes)?;
        self.ending = ending;
        Ok(())
    }

    /// Writes a word.
    #[tactic(auto, unfolding(crate::specs::Writing::put))]
    pub fn word(&mut self, word: &[u8]) -> Result<(), AllocError>
        ensures { OnOk result (self.new ≡ put self.old (Word word.now)) }
    {
        let hangs = self.ending.is_open();
        self.put(hangs, word, Ending::Name)
    }

    /// Writes a number.
    #[tactic(auto, unfolding(crate::specs::Writing::put))]
    pub fn number(&mut self, number: u64) -> Result<(), AllocError>
        ensures { OnOk result (self.new ≡ put self.old (Number number)) }
    {
        let hangs = self.ending.is_open();
        let mut digits = Buffer::new();
        self.put(hangs, digits.format(number).as_bytes(), Ending::Closed)
    }

    /// Writes these bytes between quotes, with each quote among them doubled.
    #[tactic(auto, unfolding(crate::specs::Writing::put))]
    pub fn text(&mut self, text: &[u8]) -> Result<(), AllocError>
        ensures { OnOk result (self.new ≡ put self.old (Text text.now)) }
    {
        let hangs = self.ending.is_open();
        self.put(hangs, b"'", Ending::Closed)?;
        push_doubled(&mut self.text, text)?;
        self.text.push(b'\'')?;
        Ok(())
    }

    /// Writes a symbol.
    #[tactic(auto, unfolding(crate::specs::Writing::put))]
    pub fn symbol(&mut self, symbol: &[u8]) -> Result<(), AllocError>
        ensures { OnOk result (self.new ≡ put self.old (Symbol symbol.now)) }
    {
        let hangs = self.ending.takes(symbol);
        self.put(hangs, symbol, Ending::of_symbol(symbol))
    }

    /// Ends the statement, with `;` and the end of the line.
    #[tactic(auto, unfolding(crate::specs::Writing::ended))]
    pub fn end_statement(&mut self) -> Result<(), AllocError>
        ensures { OnOk result (self.new ≡ ended self.old) }
    {
        self.text.extend_from_slice(b";\n")?;
        self.ending = Ending::Open;
        Ok(())
    }

    /// The text so far.
    pub fn into_bytes(self) -> Vec<u8>
        ensures { result.items ≡ self.text }
    {
        self.text
    }
}
