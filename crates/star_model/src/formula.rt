// Cost formulas.

ghost use Rattle.std.specs.Prelude.{◌≡◌, IfOk};

use crate::num::Num;
use sqlite_items::Boxed;
use std::alloc::{AllocError, Global};

/// A variable of a cost formula.
#[derive(Clone, Copy, Debug, PartialEq, Eq)]
pub enum Var {
    Cost1,
    Rescan1,
    Card1,
    Width1,
    Cost2,
    Rescan2,
    Card2,
    Width2,
    Card,
    Width,
    Rows,
    Pages,
    Preds,
    Cpu,
    Net,
    /// Always 1.
    One,
    /// Distinct values of a predicate's left column. This and the next three stand in selectivities
    /// only.
    Distinct1,
    /// Rows of the left column's table.
    Rows1,
    /// Of the right column, as the two before.
    Distinct2,
    Rows2,
}

/// How an `if` of a formula compares its two parts.
#[derive(Clone, Copy, Debug, PartialEq, Eq)]
pub enum Test {
    Lt,
    Le,
    Eq,
}

/// A cost formula over whole numbers. Each result is cut at 10^18.
#[derive(Drop)]
pub enum Formula {
    Number(u64),
    Variable(Var),
    Add(Boxed<Formula>, Boxed<Formula>),
    Sub(Boxed<Formula>, Boxed<Formula>),
    Mul(Boxed<Formula>, Boxed<Formula>),
    Div(Boxed<Formula>, Boxed<Formula>),
    Min(Boxed<Formula>, Boxed<Formula>),
    Max(Boxed<Formula>, Boxed<Formula>),
    If {
        test: Test,
        x: Boxed<Formula>,
        y: Boxed<Formula>,
        yes: Boxed<Formula>,
        no: Boxed<Formula>,
    },
}

/// What the variables of a formula stand for, but `One`.
#[derive(Clone, Copy, Debug, PartialEq, Eq)]
pub struct Vars {
    /// Cost of the first production of the first input; 0 where there is none. Likewise the next
    /// three.
    pub cost1: Num,
    /// Cost of each further production.
    pub rescan1: Num,
    /// Estimated rows.
    pub card1: Num,
    /// Bytes of a row.
    pub width1: Num,
    /// Of the second input, as the four before.
    pub cost2: Num,
    pub rescan2: Num,
    pub card2: Num,
    pub width2: Num,
    /// Estimated rows of the result.
    pub card: Num,
    /// Bytes of a row of the result.
    pub width: Num,
    /// Rows of the table that is read; 0 where none is.
    pub rows: Num,
    /// Pages of the table or index that is read; 0 where none is.
    pub pages: Num,
    /// How many predicates the operator applies, whether or not an input has them already.
    pub preds: Num,
    /// The weight of the site where the operator works.
    pub cpu: Num,
    /// The weights of both sites of a shipment; 0 where nothing is shipped.
    pub net: Num,
    /// Distinct values of a predicate's left column; 0 in a cost formula, as the next three.
    pub distinct1: Num,
    /// Rows of the left column's table.
    pub rows1: Num,
    /// Distinct values of the right column; 0 where the right side is a constant, as the next.
    pub distinct2: Num,
    /// Rows of the right column's table.
    pub rows2: Num,
}

impl Formula {
    /// An equal formula.
    #[cycle(copies)]
    pub fn copy(&self, alloc: Global) -> Result<Formula, AllocError>
        ensures { IfOk result (λ f. f ≡ self.now) }
    {
        match self {
            Formula::Number(n) => Ok(Formula::Number(*n)),
            Formula::Variable(x) => Ok(Formula::Variable(*x)),
            Formula::Add(a, b) => Ok(Formula::Add(copy_box(alloc, a)?, copy_box(alloc, b)?)),
            Formula::Sub(a, b) => Ok(Formula::Sub(copy_box(alloc, a)?, copy_box(alloc, b)?)),
            Formula::Mul(a, b) => Ok(Formula::Mul(copy_box(alloc, a)?, copy_box(alloc, b)?)),
            Formula::Div(a, b) => Ok(Formula::Div(copy_box(alloc, a)?, copy_box(alloc, b)?)),
            Formula::Min(a, b) => Ok(Formula::Min(copy_box(alloc, a)?, copy_box(alloc, b)?)),
            Formula::Max(a, b) => Ok(Formula::Max(copy_box(alloc, a)?, copy_box(alloc, b)?)),
            Formula::If {
                test,
                x,
                y,
                yes,
                no,
            } => Ok(Formula::If {
                test: *test,
                x: copy_box(alloc, x)?,
                y: copy_box(alloc, y)?,
                yes: copy_box(alloc, yes)?,
                no: copy_box(alloc, no)?,
            }),
        }
    }
}

#[cycle(copies)]
fn copy_box(alloc: Global, part: &Boxed<Formula>) -> Result<Boxed<Formula>, AllocError>
    ensures { IfOk result (λ f. f ≡ part.now) }
{
    Boxed::new(alloc, part.get().copy(alloc)?)
}
