// Printing a formula, with the fewest brackets.

ghost use Rattle.std.specs.Prelude.{◌≡◌, ◌∷◌, ◌++◌, IfOk, OnOk};
ghost use Rattle.cost_formula.specs.FormulaCanonical.{rank_of, stands};
ghost use Rattle.cost_formula.specs.Formulas.{variable_word, formula_lexemes, canonical_formula};
ghost use Rattle.spelling.specs.Lexemes.{Word, Symbol, bracketed, comma};
ghost use Rattle.spelling.specs.Writing.{puts};
ghost use Rattle.cost_formula.specs.Printing.{rule_of, test_sign, operand_lexemes};

use spelling::Writer;
use star_model::formula::{Formula, Test, Var};
use std::alloc::{AllocError, Global};

// The rules of the grammar, from the one that binds most tightly.
#[derive(Clone, Copy)]
enum Rank {
    Factor,
    Term,
    Sum,
    Whole,
}

// The rule that makes a formula.
#[tactic(auto, using(crate::specs::FormulaCanonical::rank_of_cases))]
fn rank_of(formula: &Formula) -> Rank
    ensures { rule_of result ≡ rank_of formula.now }
{
    match formula {
        Formula::Number(_) | Formula::Variable(_) => Rank::Factor,
        Formula::Min(_, _) | Formula::Max(_, _) => Rank::Factor,
        Formula::Mul(_, _) | Formula::Div(_, _) => Rank::Term,
        Formula::Add(_, _) | Formula::Sub(_, _) => Rank::Sum,
        Formula::If { .. } => Rank::Whole,
    }
}

impl Rank {
    // Whether a formula of this rank stands without brackets where one of the other is wanted.
    fn stands(self, wanted: Rank) -> bool
        ensures { result ≡ stands (rule_of self) (rule_of wanted) }
    {
        match (self, wanted) {
            (Rank::Factor, _) => true,
            (Rank::Term, Rank::Factor) => false,
            (Rank::Term, _) => true,
            (Rank::Sum, Rank::Factor | Rank::Term) => false,
            (Rank::Sum, _) => true,
            (Rank::Whole, Rank::Whole) => true,
            (Rank::Whole, _) => false,
        }
    }
}

fn variable_word(variable: Var) -> &'static [u8]
    ensures { result.now ≡ variable_word variable }
{
    match variable {
        Var::Cost1 => b"cost1",
        Var::Rescan1 => b"rescan1",
        Var::Card1 => b"card1",
        Var::Width1 => b"width1",
        Var::Cost2 => b"cost2",
        Var::Rescan2 => b"rescan2",
        Var::Card2 => b"card2",
        Var::Width2 => b"width2",
        Var::Card => b"card",
        Var::Width => b"width",
        Var::Rows => b"rows",
        Var::Pages => b"pages",
        Var::Preds => b"preds",
        Var::Cpu => b"cpu",
        Var::Net => b"net",
        Var::One => b"one",
        Var::Distinct1 => b"distinct1",
        Var::Rows1 => b"rows1",
        Var::Distinct2 => b"distinct2",
        Var::Rows2 => b"rows2",
    }
}

fn test_sign(test: Test) -> &'static [u8]
    ensures { result.now ≡ test_sign test }
{
    match test {
        Test::Lt => b"<",
        Test::Le => b"<=",
        Test::Eq => b"=",
    }
}

// An operand, in brackets where a formula of this rank can't be without them.
#[cycle(print)]
#[tactic(auto, using(crate::proofs::Printed::operands))]
fn write_operand(out: &mut Writer, formula: &Formula, wanted: Rank) -> Result<(), AllocError>
    ensures { OnOk result (out.new ≡ puts out.old (operand_lexemes (rule_of wanted) formula.now)) }
{
    if rank_of(formula).stands(wanted) {
        return write_formula(out, formula);
    }
    out.symbol(b"(")?;
    write_formula(out, formula)?;
    out.symbol(b")")
}

// Two operands, each with the rank that is wanted there, and the sign between them.
#[cycle(print)]
#[tactic(auto, using(crate::proofs::Printed::parts, star_model::specs::NodeCounts::node_counts))]
fn write_infix(
    out: &mut Writer,
    left: (&Formula, Rank),
    sign: &[u8],
    right: (&Formula, Rank),
) -> Result<(), AllocError>
    ensures { OnOk result (out.new ≡ puts out.old
        (operand_lexemes (rule_of left.entry.1) left.entry.0.now ++ Symbol sign.now
        ∷ operand_lexemes (rule_of right.entry.1) right.entry.0.now)) }
{
    write_operand(out, left.0, left.1)?;
    out.symbol(sign)?;
    write_operand(out, right.0, right.1)
}

// A call of a function of two arguments.
#[cycle(print)]
#[tactic(auto, using(crate::proofs::Printed::parts, star_model::specs::NodeCounts::node_counts))]
fn write_call(out: &mut Writer, function: &[u8], a: &Formula, b: &Formula) -> Result<(), AllocError>
    ensures { OnOk result (out.new ≡ puts out.old
        (Word function.now ∷ bracketed (formula_lexemes a.now ++ comma ∷ formula_lexemes b.now))) }
{
    out.word(function)?;
    out.symbol(b"(")?;
    write_formula(out, a)?;
    out.symbol(b",")?;
    write_formula(out, b)?;
    out.symbol(b")")
}

/// Writes a formula within a statement, with the fewest brackets. Where it answers an error, memory
/// was wanting, and the text is of no use.
///
/// The recursion goes as deep as the formula nests.
#[cycle(print)]
#[tactic(auto, using(crate::proofs::Printed::parts, star_model::specs::NodeCounts::node_counts))]
pub fn write_formula(out: &mut Writer, formula: &Formula) -> Result<(), AllocError>
    ensures { OnOk result (out.new ≡ puts out.old (formula_lexemes formula.now)) }
{
    match formula {
        Formula::Number(number) => out.number(*number),
        Formula::Variable(variable) => out.word(variable_word(*variable)),
        Formula::Add(a, b) => write_infix(out, (a.get(), Rank::Sum), b"+", (b.get(), Rank::Term)),
        Formula::Sub(a, b) => write_infix(out, (a.get(), Rank::Sum), b"-", (b.get(), Rank::Term)),
        Formula::Mul(a, b) => write_infix(
            out,
            (a.get(), Rank::Term),
            b"*",
            (b.get(), Rank::Factor),
        ),
        Formula::Div(a, b) => write_infix(
            out,
            (a.get(), Rank::Term),
            b"/",
            (b.get(), Rank::Factor),
        ),
        Formula::Min(a, b) => write_call(out, b"min", a.get(), b.get()),
        Formula::Max(a, b) => write_call(out, b"max", a.get(), b.get()),
        Formula::If {
            test,
            x,
            y,
            yes,
            no,
        } => {
            out.word(b"if")?;
            write_infix(
                out,
                (x.get(), Rank::Sum),
                test_sign(*test),
                (y.get(), Rank::Sum),
            )?;
            out.word(b"then")?;
            write_formula(out, yes.get())?;
            out.word(b"else")?;
            write_formula(out, no.get())
        }
    }
}

/// The canonical text of a formula: with the fewest brackets, as it stands in a statement.
///
/// The recursion goes as deep as the formula nests.
#[tactic(auto, using(crate::proofs::Printed::texts))]
pub fn print_formula(alloc: Global, formula: &Formula) -> Result<Vec<u8>, AllocError>
    ensures { IfOk result (λ text. text.items ≡ canonical_formula formula.now) }
{
    let mut out = Writer::new(alloc);
    write_formula(&mut out, formula)?;
    Ok(out.into_bytes())
}
