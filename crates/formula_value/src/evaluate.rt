// What a formula comes to.

ghost use Rattle.std.specs.Prelude.{◌≡◌};
ghost use Rattle.star_model.specs.Formulas.{value, entry, compares};

use star_model::formula::{Formula, Test, Var, Vars};
use star_model::num::{Num, cap_add, cap_div, cap_mul, cap_sub};

fn entry_of(vars: &Vars, variable: Var) -> Num
    ensures { result ≡ entry variable vars.now }
{
    match variable {
        Var::Cost1 => vars.cost1,
        Var::Rescan1 => vars.rescan1,
        Var::Card1 => vars.card1,
        Var::Width1 => vars.width1,
        Var::Cost2 => vars.cost2,
        Var::Rescan2 => vars.rescan2,
        Var::Card2 => vars.card2,
        Var::Width2 => vars.width2,
        Var::Card => vars.card,
        Var::Width => vars.width,
        Var::Rows => vars.rows,
        Var::Pages => vars.pages,
        Var::Preds => vars.preds,
        Var::Cpu => vars.cpu,
        Var::Net => vars.net,
        Var::One => Num::cut(1),
        Var::Distinct1 => vars.distinct1,
        Var::Rows1 => vars.rows1,
        Var::Distinct2 => vars.distinct2,
        Var::Rows2 => vars.rows2,
    }
}

fn holds(test: Test, x: Num, y: Num) -> bool
    ensures { result ≡ compares test x y }
{
    match test {
        Test::Lt => x < y,
        Test::Le => x <= y,
        Test::Eq => x == y,
    }
}

/// The value of a formula, where each variable stands for its entry. It takes no memory.
///
/// Only the branch of an `if` that is taken is evaluated. The recursion goes as deep as the formula
/// nests.
#[tactic(auto, using(star_model::specs::FormulasEquations::value_cases))]
pub fn eval(formula: &Formula, vars: &Vars) -> Num
    ensures { result ≡ value formula.now vars.now }
{
    match formula {
        Formula::Number(n) => Num::cut(*n),
        Formula::Variable(variable) => entry_of(vars, *variable),
        Formula::Add(a, b) => cap_add(eval(a.get(), vars), eval(b.get(), vars)),
        Formula::Sub(a, b) => cap_sub(eval(a.get(), vars), eval(b.get(), vars)),
        Formula::Mul(a, b) => cap_mul(eval(a.get(), vars), eval(b.get(), vars)),
        Formula::Div(a, b) => cap_div(eval(a.get(), vars), eval(b.get(), vars)),
        Formula::Min(a, b) => eval(a.get(), vars).min(eval(b.get(), vars)),
        Formula::Max(a, b) => eval(a.get(), vars).max(eval(b.get(), vars)),
        Formula::If {
            test,
            x,
            y,
            yes,
            no,
        } => {
            if holds(*test, eval(x.get(), vars), eval(y.get(), vars)) {
                eval(yes.get(), vars)
            } else {
                eval(no.get(), vars)
            }
        }
    }
}
