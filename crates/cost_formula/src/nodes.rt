// Making formulas of their parts.

ghost use Rattle.std.specs.Prelude.{◌≡◌, IfOk};
ghost use Rattle.star_model.specs.FormulaCases.{Min, Max, If};
ghost use Rattle.cost_formula.specs.FormulaReading.{joined};

use crate::formula_word::Sign;
use sqlite_items::Boxed;
use star_model::formula::{Formula, Test};
use std::alloc::{AllocError, Global};

#[tactic(auto, using(star_model::specs::FormulaCases::formulaCases_made))]
pub fn join(alloc: Global, sign: Sign, x: Formula, y: Formula) -> Result<Formula, AllocError>
    ensures { IfOk result (λ f. f ≡ joined sign x y) }
{
    let x = Boxed::new(alloc, x)?;
    let y = Boxed::new(alloc, y)?;
    match sign {
        Sign::Plus => Ok(Formula::Add(x, y)),
        Sign::Minus => Ok(Formula::Sub(x, y)),
        Sign::Times => Ok(Formula::Mul(x, y)),
        Sign::Over => Ok(Formula::Div(x, y)),
    }
}

#[tactic(auto, using(star_model::specs::FormulaCases::formulaCases_made))]
pub fn lesser(alloc: Global, x: Formula, y: Formula) -> Result<Formula, AllocError>
    ensures { IfOk result (λ f. f ≡ Min x y) }
{
    Ok(Formula::Min(Boxed::new(alloc, x)?, Boxed::new(alloc, y)?))
}

#[tactic(auto, using(star_model::specs::FormulaCases::formulaCases_made))]
pub fn greater(alloc: Global, x: Formula, y: Formula) -> Result<Formula, AllocError>
    ensures { IfOk result (λ f. f ≡ Max x y) }
{
    Ok(Formula::Max(Boxed::new(alloc, x)?, Boxed::new(alloc, y)?))
}

#[tactic(auto, using(star_model::specs::FormulaCases::formulaCases_made))]
pub fn chosen(
    alloc: Global,
    test: Test,
    x: Formula,
    y: Formula,
    yes: Formula,
    no: Formula,
) -> Result<Formula, AllocError>
    ensures { IfOk result (λ f. f ≡ If test x y yes no) }
{
    Ok(Formula::If {
        test,
        x: Boxed::new(alloc, x)?,
        y: Boxed::new(alloc, y)?,
        yes: Boxed::new(alloc, yes)?,
        no: Boxed::new(alloc, no)?,
    })
}
