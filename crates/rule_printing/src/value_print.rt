// Printing a value.

ghost use Rattle.std.specs.Prelude.{◌≡◌, [], ◌∷◌, ◌++◌, OnOk};
ghost use Rattle.spelling.specs.Lexemes.{Word, comma, call};
ghost use Rattle.rule_grammar.specs.Values.{in_squares, value_lexemes};
ghost use Rattle.spelling.specs.Writing.{puts};

use spelling::{Printer, Writer};
use star_model::rules::ValueExpr;
use std::alloc::AllocError;

/// Writes a word and a value in brackets.
#[cycle(value_print)]
#[tactic(auto, using(spelling::proofs::Laws::writing))]
pub fn print_unary(out: &mut Writer, word: &[u8], value: &ValueExpr) -> Result<(), AllocError>
    ensures { OnOk result (out.new ≡ puts out.old (call word.now (value_lexemes value.now ∷ []))) }
{
    out.word(word)?;
    out.symbol(b"(")?;
    print_value(out, value)?;
    out.symbol(b")")
}

// Two values and the comma between them.
#[cycle(value_print)]
#[tactic(auto, using(spelling::proofs::Laws::writing))]
fn print_pair(out: &mut Writer, first: &ValueExpr, second: &ValueExpr) -> Result<(), AllocError>
    ensures { OnOk result (out.new ≡ puts out.old
        (value_lexemes first.now ++ comma ∷ value_lexemes second.now)) }
{
    print_value(out, first)?;
    out.symbol(b",")?;
    print_value(out, second)
}

/// Writes a word and two values in brackets.
#[cycle(value_print)]
#[tactic(auto, using(spelling::proofs::Laws::writing))]
pub fn print_binary(
    out: &mut Writer,
    word: &[u8],
    first: &ValueExpr,
    second: &ValueExpr,
) -> Result<(), AllocError>
    ensures { OnOk result (out.new ≡ puts out.old
        (call word.now (value_lexemes first.now ∷ value_lexemes second.now ∷ []))) }
{
    out.word(word)?;
    out.symbol(b"(")?;
    print_pair(out, first, second)?;
    out.symbol(b")")
}

// A word and three values in brackets.
#[cycle(value_print)]
#[tactic(auto, using(spelling::proofs::Laws::writing))]
fn print_ternary(
    out: &mut Writer,
    word: &[u8],
    first: &ValueExpr,
    second: &ValueExpr,
    third: &ValueExpr,
) -> Result<(), AllocError>
    ensures { OnOk result (out.new ≡ puts out.old
        (call word.now (value_lexemes first.now ∷ value_lexemes second.now ∷ value_lexemes third.now
        ∷ []))) }
{
    out.word(word)?;
    out.symbol(b"(")?;
    print_value(out, first)?;
    out.symbol(b",")?;
    print_pair(out, second, third)?;
    out.symbol(b")")
}

// A stream and what is required of it: a word and a value in square brackets.
#[cycle(value_print)]
#[tactic(auto, using(spelling::proofs::Laws::writing))]
fn print_required(
    out: &mut Writer,
    stream: &ValueExpr,
    word: &[u8],
    value: &ValueExpr,
) -> Result<(), AllocError>
    ensures { OnOk result (out.new ≡ puts out.old
        (value_lexemes stream.now ++ in_squares (Word word.now ∷ value_lexemes value.now))) }
{
    print_value(out, stream)?;
    out.symbol(b"[")?;
    out.word(word)?;
    print_value(out, value)?;
    out.symbol(b"]")
}

/// Writes a value within a statement. Where it answers an error, memory was wanting, and the text
/// is of no use.
///
/// The recursion goes as deep as the value nests.
#[cycle(value_print)]
#[tactic(auto, using(crate::proofs::PrintedValues::values))]
pub fn print_value(out: &mut Writer, value: &ValueExpr) -> Result<(), AllocError>
    ensures { OnOk result (out.new ≡ puts out.old (value_lexemes value.now)) }
{
    match value {
        ValueExpr::Variable { name, place: _ } => out.word(name.as_slice()),
        ValueExpr::WithOrder(t, v) => print_required(out, t.get(), b"order", v.get()),
        ValueExpr::WithSite(t, v) => print_required(out, t.get(), b"site", v.get()),
        ValueExpr::WithTemp(t) => {
            print_value(out, t.get())?;
            out.symbol(b"[")?;
            out.word(b"temp")?;
            out.symbol(b"]")
        }
        ValueExpr::WithPath(t, v) => print_required(out, t.get(), b"path", v.get()),
        ValueExpr::Tables(v) => print_unary(out, b"tables", v.get()),
        ValueExpr::All => out.word(b"all"),
        ValueExpr::NoPreds => out.word(b"none"),
        ValueExpr::Inside(v) => print_unary(out, b"inside", v.get()),
        ValueExpr::Crossing(v) => print_unary(out, b"crossing", v.get()),
        ValueExpr::Between(v, w) => print_binary(out, b"between", v.get(), w.get()),
        ValueExpr::Equalities(v) => print_unary(out, b"equalities", v.get()),
        ValueExpr::Indexable(t, x, v) => {
            print_ternary(out, b"indexable", t.get(), x.get(), v.get())
        }
        ValueExpr::NoCols => out.word(b"nocols"),
        ValueExpr::OrderBy => out.word(b"orderby"),
        ValueExpr::Columns(v, w) => print_binary(out, b"columns", v.get(), w.get()),
        ValueExpr::Keys(v, w) => print_binary(out, b"keys", v.get(), w.get()),
        ValueExpr::Home(v) => print_unary(out, b"home", v.get()),
        ValueExpr::QuerySite => out.word(b"querysite"),
        ValueExpr::Union(v, w) => print_binary(out, b"union", v.get(), w.get()),
        ValueExpr::Minus(v, w) => print_binary(out, b"minus", v.get(), w.get()),
        ValueExpr::Meet(v, w) => print_binary(out, b"meet", v.get(), w.get()),
    }
}

/// Prints values.
pub struct Values;

impl Printer<ValueExpr> for Values {
    ghost lexemes = { λ _ v. value_lexemes v };

    fn print(&self, out: &mut Writer, part: &ValueExpr) -> Result<(), AllocError> {
        print_value(out, part)
    }
}
