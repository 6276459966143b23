// Printing a derivation, a statement for each node, in preorder.

ghost use Rattle.std.specs.Prelude.{◌≡◌, IfOk, OnOk};
ghost use Rattle.derivation_reading.specs.Derivations.{glue_word, set_lexemes, split_lexemes, statement_of, statements_of, canonical};
ghost use Rattle.derivation_reading.specs.Derivations as step;
ghost use Rattle.derivation_print.specs.Members.{member_lexemes};
ghost use Rattle.spelling.specs.Writing.{puts, ended, lines};

use crate::members::Members;
use spelling::Writer;
use star_model::derivations::Deriv;
use star_model::flavours::flavour_word;
use star_model::plans::{GlueOp, Goal};
use star_model::rules::Flavour;
use star_model::sets::QuantSet;
use std::alloc::{AllocError, Global};

fn glue_word(operator: GlueOp) -> &'static [u8]
    ensures { result.now ≡ glue_word operator }
{
    match operator {
        GlueOp::Sort => b"sort",
        GlueOp::Ship => b"ship",
        GlueOp::Store => b"store",
    }
}

#[tactic(auto, using(spelling::proofs::Laws::writing))]
fn print_glue(out: &mut Writer, chain: &[GlueOp]) -> Result<(), AllocError>
    ensures { OnOk result (out.new ≡ ended (puts out.old (statement_of (step.Glue chain.now)))) }
{
    out.word(b"glue")?;
    for operator in chain {
        out.word(glue_word(*operator))?;
    }
    out.end_statement()
}

// A member of a set, counted from 1, behind a comma where another stands before it.
#[tactic(auto, using(spelling::proofs::Laws::writing))]
fn print_member(out: &mut Writer, is_first: bool, n: u8) -> Result<(), AllocError>
    ensures { OnOk result (out.new ≡ puts out.old (member_lexemes is_first n)) }
{
    if !is_first {
        out.symbol(b",")?;
    }
    out.number(u64::from(n) + 1)
}

fn print_set<S: Members>(out: &mut Writer, set: S) -> Result<(), AllocError>
    ensures { OnOk result (out.new ≡ puts out.old (set_lexemes (S.number set))) }
{
    out.symbol(b"{")?;
    let mut is_first = true;
    for n in 0..32 {
        if set.has(n) {
            print_member(out, is_first, n)?;
            is_first = false;
        }
    }
    out.symbol(b"}")
}

#[tactic(auto, using(spelling::proofs::Laws::writing))]
fn print_split(out: &mut Writer, split: &Option<(QuantSet, QuantSet)>) -> Result<(), AllocError>
    ensures { OnOk result (out.new ≡ puts out.old (split_lexemes split.now)) }
{
    match split {
        None => Ok(()),
        Some((left, right)) => {
            out.word(b"split")?;
            print_set(out, *left)?;
            print_set(out, *right)
        }
    }
}

#[tactic(auto, using(spelling::proofs::Laws::writing))]
fn print_goal(
    out: &mut Writer,
    goal: &Goal,
    split: &Option<(QuantSet, QuantSet)>,
) -> Result<(), AllocError>
    ensures { OnOk result (out.new ≡ ended (puts out.old
        (statement_of (step.Goal goal.now split.now)))) }
{
    out.word(b"goal")?;
    print_set(out, goal.tables)?;
    out.word(b"pushed")?;
    print_set(out, goal.pushed)?;
    print_split(out, split)?;
    out.end_statement()
}

#[tactic(auto, using(spelling::proofs::Laws::writing))]
fn print_reference(
    out: &mut Writer,
    star: &[u8],
    alternative: u32,
    values: &[u32],
) -> Result<(), AllocError>
    ensures { OnOk result (out.new ≡ ended (puts out.old
        (statement_of (step.Reference star.now alternative values.now)))) }
{
    out.word(b"ref")?;
    out.word(star)?;
    out.number(u64::from(alternative))?;
    for value in values {
        out.number(u64::from(*value))?;
    }
    out.end_statement()
}

#[tactic(auto, using(spelling::proofs::Laws::writing))]
fn print_operator(out: &mut Writer, flavour: Flavour) -> Result<(), AllocError>
    ensures { OnOk result (out.new ≡ ended (puts out.old (statement_of (step.Operator flavour)))) }
{
    out.word(flavour_word(flavour).as_bytes())?;
    out.end_statement()
}

#[tactic(auto, using(crate::proofs::Steps::nodes))]
fn print_node(out: &mut Writer, deriv: &Deriv) -> Result<(), AllocError>
    ensures { OnOk result (out.new ≡ lines out.old (statements_of deriv.now)) }
{
    match deriv {
        Deriv::Glue { chain, goal } => {
            print_glue(out, chain.as_slice())?;
            print_node(out, goal.get())
        }
        Deriv::Goal { goal, split, body } => {
            print_goal(out, goal, split)?;
            print_node(out, body.get())
        }
        Deriv::Reference {
            star,
            alternative,
            values,
            body,
        } => {
            print_reference(out, star.as_slice(), *alternative, values.as_slice())?;
            print_node(out, body.get())
        }
        Deriv::Leaf { flavour } => print_operator(out, *flavour),
        Deriv::Unary { flavour, input } => {
            print_operator(out, *flavour)?;
            print_node(out, input.get())
        }
        Deriv::Binary {
            flavour,
            left,
            right,
        } => {
            print_operator(out, *flavour)?;
            print_node(out, left.get())?;
            print_node(out, right.get())
        }
    }
}

/// The text that spells the derivation, in canonical layout: a statement for each node, in
/// preorder, each on a line of its own.
///
/// Quantifiers and predicates are counted from 1, as a user counts them. The recursion goes as deep
/// as the derivation.
#[tactic(auto, using(crate::proofs::Steps::whole_text))]
pub fn print_derivation(alloc: Global, deriv: &Deriv) -> Result<Vec<u8>, AllocError>
    ensures { IfOk result (λ text. text.items ≡ canonical deriv.now) }
{
    let mut out = Writer::new(alloc);
    print_node(&mut out, deriv)?;
    Ok(out.into_bytes())
}
