// Reading the words of a formula from the front.

ghost use Rattle.std.specs.Prelude.{◌≡◌};
ghost use Rattle.cost_formula.specs.FormulaReading.{after_open, after_close, after_comma, after_then, after_else, test_at, product_sign_of, sum_sign_of, next_of, is_conditional};
ghost use Rattle.cost_formula.specs.Reading.{Reads};

use crate::formula_word::{FormulaWord, Sign};
use star_model::formula::Test;
use std::alloc::AllocError;

/// Why reading stops.
#[derive(Drop)]
pub enum Stop {
    /// Memory ran out.
    Memory,
    /// The words spell no formula.
    Unspelled,
}

impl From<AllocError> for Stop {
    ghost use Rattle.cost_formula.specs.declared.cursor.Stop.TheVariants.{Memory};

    ghost from_gives = { λ _ e. e ≡ Memory };

    fn from(_: AllocError) -> Stop {
        Stop::Memory
    }
}

/// The words that are still to be read.
#[derive(Drop)]
pub struct WordCursor<'a> {
    pub left: &'a [FormulaWord],
}

impl<'a> WordCursor<'a> {
    pub fn open(&mut self) -> Result<(), Stop>
        ensures { Reads (after_open self.old.left.now) result self.new.left.now }
    {
        match self.left {
            [FormulaWord::Open, rest @ ..] => {
                self.left = rest;
                Ok(())
            }
            _ => Err(Stop::Unspelled),
        }
    }

    pub fn close(&mut self) -> Result<(), Stop>
        ensures { Reads (after_close self.old.left.now) result self.new.left.now }
    {
        match self.left {
            [FormulaWord::Close, rest @ ..] => {
                self.left = rest;
                Ok(())
            }
            _ => Err(Stop::Unspelled),
        }
    }

    pub fn comma(&mut self) -> Result<(), Stop>
        ensures { Reads (after_comma self.old.left.now) result self.new.left.now }
    {
        match self.left {
            [FormulaWord::Comma, rest @ ..] => {
                self.left = rest;
                Ok(())
            }
            _ => Err(Stop::Unspelled),
        }
    }

    pub fn then(&mut self) -> Result<(), Stop>
        ensures { Reads (after_then self.old.left.now) result self.new.left.now }
    {
        match self.left {
            [FormulaWord::Then, rest @ ..] => {
                self.left = rest;
                Ok(())
            }
            _ => Err(Stop::Unspelled),
        }
    }

    pub fn otherwise(&mut self) -> Result<(), Stop>
        ensures { Reads (after_else self.old.left.now) result self.new.left.now }
    {
        match self.left {
            [FormulaWord::Else, rest @ ..] => {
                self.left = rest;
                Ok(())
            }
            _ => Err(Stop::Unspelled),
        }
    }

    pub fn test(&mut self) -> Result<Test, Stop>
        ensures { Reads (test_at self.old.left.now) result self.new.left.now }
    {
        match self.left {
            [FormulaWord::Test(test), rest @ ..] => {
                let test = *test;
                self.left = rest;
                Ok(test)
            }
            _ => Err(Stop::Unspelled),
        }
    }

    /// Passes `*` or `/`, if one is next.
    pub fn product_sign(&mut self) -> Option<Sign>
        ensures { product_sign_of self.old.left.now ≡ (result, self.new.left.now) }
    {
        match self.left {
            [FormulaWord::Times, rest @ ..] => {
                self.left = rest;
                Some(Sign::Times)
            }
            [FormulaWord::Over, rest @ ..] => {
                self.left = rest;
                Some(Sign::Over)
            }
            _ => None,
        }
    }

    /// Passes `+` or `-`, if one is next.
    pub fn sum_sign(&mut self) -> Option<Sign>
        ensures { sum_sign_of self.old.left.now ≡ (result, self.new.left.now) }
    {
        match self.left {
            [FormulaWord::Plus, rest @ ..] => {
                self.left = rest;
                Some(Sign::Plus)
            }
            [FormulaWord::Minus, rest @ ..] => {
                self.left = rest;
                Some(Sign::Minus)
            }
            _ => None,
        }
    }

    /// The next word, whichever it is.
    pub fn next(&mut self) -> Option<FormulaWord>
        ensures { next_of self.old.left.now ≡ (result, self.new.left.now) }
    {
        match self.left {
            [word, rest @ ..] => {
                let word = *word;
                self.left = rest;
                Some(word)
            }
            [] => None,
        }
    }

    /// Passes `if`, if it is next.
    pub fn conditional(&mut self) -> bool
        ensures { is_conditional self.old.left.now ≡ (result, self.new.left.now) }
    {
        match self.left {
            [FormulaWord::If, rest @ ..] => {
                self.left = rest;
                true
            }
            _ => false,
        }
    }
}
