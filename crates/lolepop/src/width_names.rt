// Whether formulas name the width of rows.

ghost use Rattle.std.specs.Prelude.{◌≡◌};
ghost use Rattle.lolepop.specs.Widths.{is_width, lacks_width};

use star_model::formula::{Formula, Var};

fn is_width(variable: Var) -> bool
    ensures { result ≡ is_width variable }
{
    match variable {
        Var::Width1 => true,
        Var::Width2 => true,
        Var::Width => true,
        Var::Cost1 => false,
        Var::Rescan1 => false,
        Var::Card1 => false,
        Var::Cost2 => false,
        Var::Rescan2 => false,
        Var::Card2 => false,
        Var::Card => false,
        Var::Rows => false,
        Var::Pages => false,
        Var::Preds => false,
        Var::Cpu => false,
        Var::Net => false,
        Var::One => false,
        Var::Distinct1 => false,
        Var::Rows1 => false,
        Var::Distinct2 => false,
        Var::Rows2 => false,
    }
}

/// Whether no width stands in the formula.
#[tactic(auto, using(crate::proofs::WidthCases::width_cases))]
pub fn lacks_width(formula: &Formula) -> bool
    ensures { result ≡ lacks_width formula.now }
{
    match formula {
        Formula::Number(_) => true,
        Formula::Variable(variable) => !is_width(*variable),
        Formula::Add(a, b) => lacks_width(a.get()) && lacks_width(b.get()),
        Formula::Sub(a, b) => lacks_width(a.get()) && lacks_width(b.get()),
        Formula::Mul(a, b) => lacks_width(a.get()) && lacks_width(b.get()),
        Formula::Div(a, b) => lacks_width(a.get()) && lacks_width(b.get()),
        Formula::Min(a, b) => lacks_width(a.get()) && lacks_width(b.get()),
        Formula::Max(a, b) => lacks_width(a.get()) && lacks_width(b.get()),
        Formula::If {
            test: _,
            x,
            y,
            yes,
            no,
        } => {
            lacks_width(x.get())
                && lacks_width(y.get())
                && lacks_width(yes.get())
                && lacks_width(no.get())
        }
    }
}
