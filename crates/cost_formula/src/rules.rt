// Reading a formula by the rules of its grammar.

ghost use Rattle.cost_formula.specs.FormulaReading.{whole_at, whole_by, pair_at, bracketed_at, factor_at, term_at, sum_at, comparison_at, branches_at, conditional_at};
ghost use Rattle.cost_formula.specs.Nests.{Nests};
ghost use Rattle.cost_formula.specs.Reading.{Reads, with_operand};

use crate::cursor::{Stop, WordCursor};
use crate::formula_word::{FormulaWord, Sign};
use crate::nodes::{chosen, greater, join, lesser};
use star_model::formula::{Formula, Test};
use std::alloc::{AllocError, Global};

/// The rules take the reader of the formulas inside a formula as a parameter, so that each is
/// proved by itself.
#[derive(Clone, Copy)]
pub struct Rules<F> {
    pub alloc: Global,
    /// How many formulas may still be open inside one another.
    pub depth: usize,
    pub inner: F,
}

impl<F: Fn(Global, &mut WordCursor<'_>, usize) -> Result<Formula, Stop>> Rules<F> {
    fn inner(&self, words: &mut WordCursor<'_>) -> Result<Formula, Stop>
        requires { Nests self.now.depth (F.pre self.now.inner) (F.post self.now.inner) }
        ensures { Reads (whole_at self.now.depth words.old.left.now) result words.new.left.now }
    {
        (self.inner)(self.alloc, words, self.depth)
    }

    #[tactic(auto, unfolding(crate::specs::FormulaReading::pair_at))]
    fn pair(&self, words: &mut WordCursor<'_>) -> Result<(Formula, Formula), Stop>
        requires { Nests self.now.depth (F.pre self.now.inner) (F.post self.now.inner) }
        ensures { Reads (pair_at (whole_at self.now.depth) words.old.left.now) result
            words.new.left.now }
    {
        words.open()?;
        let x = self.inner(words)?;
        words.comma()?;
        let y = self.inner(words)?;
        words.close()?;
        Ok((x, y))
    }

    #[tactic(auto, unfolding(crate::specs::FormulaReading::bracketed_at))]
    fn bracketed(&self, words: &mut WordCursor<'_>) -> Result<Formula, Stop>
        requires { Nests self.now.depth (F.pre self.now.inner) (F.post self.now.inner) }
        ensures { Reads (bracketed_at (whole_at self.now.depth) words.old.left.now) result
            words.new.left.now }
    {
        let x = self.inner(words)?;
        words.close()?;
        Ok(x)
    }

    #[tactic(auto, unfolding(crate::specs::FormulaReading::factor_at))]
    fn factor(&self, words: &mut WordCursor<'_>) -> Result<Formula, Stop>
        requires { Nests self.now.depth (F.pre self.now.inner) (F.post self.now.inner) }
        ensures { Reads (factor_at (whole_at self.now.depth) words.old.left.now) result
            words.new.left.now }
    {
        match words.next() {
            Some(FormulaWord::Number(n)) => Ok(Formula::Number(n)),
            Some(FormulaWord::Variable(x)) => Ok(Formula::Variable(x)),
            Some(FormulaWord::Open) => self.bracketed(words),
            Some(FormulaWord::Min) => {
                let (x, y) = self.pair(words)?;
                Ok(lesser(self.alloc, x, y)?)
            }
            Some(FormulaWord::Max) => {
                let (x, y) = self.pair(words)?;
                Ok(greater(self.alloc, x, y)?)
            }
            _ => Err(Stop::Unspelled),
        }
    }

    // Goes on with the factor behind a sign.
    fn with_factor(
        &self,
        words: &mut WordCursor<'_>,
        left: Formula,
        sign: Sign,
    ) -> Result<Formula, Stop>
        requires { Nests self.now.depth (F.pre self.now.inner) (F.post self.now.inner) }
        ensures { Reads (with_operand (factor_at (whole_at self.now.depth)) left sign
            words.old.left.now) result words.new.left.now }
    {
        let right = self.factor(words)?;
        Ok(join(self.alloc, sign, left, right)?)
    }

    // Goes on with the term behind a sign.
    fn with_term(
        &self,
        words: &mut WordCursor<'_>,
        left: Formula,
        sign: Sign,
    ) -> Result<Formula, Stop>
        requires { Nests self.now.depth (F.pre self.now.inner) (F.post self.now.inner) }
        ensures { Reads (with_operand (term_at (whole_at self.now.depth)) left sign
            words.old.left.now) result words.new.left.now }
    {
        let right = self.term(words)?;
        Ok(join(self.alloc, sign, left, right)?)
    }

    #[tactic(auto, unfolding(crate::specs::FormulaReading::term_at))]
    fn term(&self, words: &mut WordCursor<'_>) -> Result<Formula, Stop>
        requires { Nests self.now.depth (F.pre self.now.inner) (F.post self.now.inner) }
        ensures { Reads (term_at (whole_at self.now.depth) words.old.left.now) result
            words.new.left.now }
    {
        let mut left = self.factor(words)?;
        'turns: for _turn in 0..words.left.len() {
            let Some(sign) = words.product_sign() else {
                return Ok(left);
            };
            left = self.with_factor(words, left, sign)?;
        }
        Ok(left)
    }

    #[tactic(auto, unfolding(crate::specs::FormulaReading::sum_at))]
    fn sum(&self, words: &mut WordCursor<'_>) -> Result<Formula, Stop>
        requires { Nests self.now.depth (F.pre self.now.inner) (F.post self.now.inner) }
        ensures { Reads (sum_at (whole_at self.now.depth) words.old.left.now) result
            words.new.left.now }
    {
        let mut left = self.term(words)?;
        'turns: for _turn in 0..words.left.len() {
            let Some(sign) = words.sum_sign() else {
                return Ok(left);
            };
            left = self.with_term(words, left, sign)?;
        }
        Ok(left)
    }

    #[tactic(auto, unfolding(crate::specs::FormulaReading::comparison_at))]
    fn comparison(&self, words: &mut WordCursor<'_>) -> Result<(Formula, Test, Formula), Stop>
        requires { Nests self.now.depth (F.pre self.now.inner) (F.post self.now.inner) }
        ensures { Reads (comparison_at (whole_at self.now.depth) words.old.left.now) result
            words.new.left.now }
    {
        let x = self.sum(words)?;
        let test = words.test()?;
        let y = self.sum(words)?;
        Ok((x, test, y))
    }

    #[tactic(auto, unfolding(crate::specs::FormulaReading::branches_at))]
    fn branches(&self, words: &mut WordCursor<'_>) -> Result<(Formula, Formula), Stop>
        requires { Nests self.now.depth (F.pre self.now.inner) (F.post self.now.inner) }
        ensures { Reads (branches_at (whole_at self.now.depth) words.old.left.now) result
            words.new.left.now }
    {
        words.then()?;
        let yes = self.inner(words)?;
        words.otherwise()?;
        let no = self.inner(words)?;
        Ok((yes, no))
    }

    #[tactic(auto, unfolding(crate::specs::FormulaReading::conditional_at))]
    fn conditional(&self, words: &mut WordCursor<'_>) -> Result<Formula, Stop>
        requires { Nests self.now.depth (F.pre self.now.inner) (F.post self.now.inner) }
        ensures { Reads (conditional_at (whole_at self.now.depth) words.old.left.now) result
            words.new.left.now }
    {
        let (x, test, y) = self.comparison(words)?;
        let (yes, no) = self.branches(words)?;
        Ok(chosen(self.alloc, test, x, y, yes, no)?)
    }

    #[tactic(auto, unfolding(crate::specs::FormulaReading::whole_by))]
    pub fn whole(&self, words: &mut WordCursor<'_>) -> Result<Formula, Stop>
        requires { Nests self.now.depth (F.pre self.now.inner) (F.post self.now.inner) }
        ensures { Reads (whole_by (whole_at self.now.depth) words.old.left.now) result
            words.new.left.now }
    {
        if words.conditional() {
            self.conditional(words)
        } else {
            self.sum(words)
        }
    }
}
