// Printing ranges and conditions.

ghost use Rattle.std.specs.Prelude.{◌≡◌, [], ◌∷◌, OnOk};
ghost use Rattle.rule_grammar.specs.Values.{range_lexemes, condition_lexemes};
ghost use Rattle.spelling.specs.Lexemes.{call};
ghost use Rattle.spelling.specs.Writing.{puts};

use crate::value_print::{print_binary, print_unary};
use spelling::Writer;
use star_model::rules::{Condition, Range};
use std::alloc::AllocError;

/// Writes a range within a statement.
#[tactic(auto, using(spelling::proofs::Laws::writing))]
pub fn print_range(out: &mut Writer, range: &Range) -> Result<(), AllocError>
    ensures { OnOk result (out.new ≡ puts out.old (range_lexemes range.now)) }
{
    match range {
        Range::Indexes(t) => print_unary(out, b"indexes", t),
        Range::Sites => out.word(b"sites"),
        Range::Members(v) => print_unary(out, b"members", v),
        Range::Each(v) => print_unary(out, b"each", v),
    }
}

// A word and two conditions in brackets.
#[cycle(condition_print)]
#[tactic(auto, using(spelling::proofs::Laws::writing))]
fn print_both(
    out: &mut Writer,
    word: &[u8],
    first: &Condition,
    second: &Condition,
) -> Result<(), AllocError>
    ensures { OnOk result (out.new ≡ puts out.old
        (call word.now (condition_lexemes first.now ∷ condition_lexemes second.now ∷ []))) }
{
    out.word(word)?;
    out.symbol(b"(")?;
    print_condition(out, first)?;
    out.symbol(b",")?;
    print_condition(out, second)?;
    out.symbol(b")")
}

/// Writes a condition within a statement.
///
/// The recursion goes as deep as the condition nests.
#[cycle(condition_print)]
#[tactic(auto, using(crate::proofs::PrintedConditions::conditions))]
pub fn print_condition(out: &mut Writer, condition: &Condition) -> Result<(), AllocError>
    ensures { OnOk result (out.new ≡ puts out.old (condition_lexemes condition.now)) }
{
    match condition {
        Condition::Empty(v) => print_unary(out, b"empty", v),
        Condition::Single(v) => print_unary(out, b"single", v),
        Condition::Same(v, w) => print_binary(out, b"same", v, w),
        Condition::Within(v, w) => print_binary(out, b"within", v, w),
        Condition::Begins(v, w) => print_binary(out, b"begins", v, w),
        Condition::Not(c) => {
            out.word(b"not")?;
            out.symbol(b"(")?;
            print_condition(out, c.get())?;
            out.symbol(b")")
        }
        Condition::And(c, d) => print_both(out, b"and", c.get(), d.get()),
        Condition::Or(c, d) => print_both(out, b"or", c.get(), d.get()),
    }
}
