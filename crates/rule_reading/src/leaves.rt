// Reading the plans that have no plans inside: references, Glue and operators that take none.
ghost use Rattle.rule_grammar.specs.ValueReading.{value_at};
ghost use Rattle.rule_grammar.specs.PlanReading.{reference_at, glue_at, leaf_at};
ghost use Rattle.spelling.specs.Answers.{Answers};

use crate::arguments::{arguments, own_arguments};
use crate::scope::Scope;
use crate::values::boxed_value;
use spelling::{Cursor, Unread};
use star_model::lists::Name;
use star_model::rules::{Flavour, PlanExpr};
use std::alloc::Global;

/// A reference to the STAR that is named by this word, behind it.
#[tactic(auto, unfolding(rule_grammar::specs::PlanReading::reference_at))]
pub fn reference(
    alloc: Global,
    scope: &Scope<'_>,
    cursor: &mut Cursor<'_>,
    depth: usize,
    word: &[u8],
) -> Result<PlanExpr, Unread>
    ensures { Answers (reference_at (value_at scope.now depth) word.now cursor.old) result
        cursor.new }
{
    cursor.the_symbol(b"(").ok_or(Unread::Strange)?;
    let args = arguments(alloc, scope, cursor, depth)?;
    cursor.the_symbol(b")").ok_or(Unread::Strange)?;
    let star = Name::from_slice(alloc, word)?;
    Ok(PlanExpr::Reference { star, args })
}

/// A call of Glue, behind its word.
#[tactic(auto, unfolding(rule_grammar::specs::PlanReading::glue_at))]
pub fn glue(
    alloc: Global,
    scope: &Scope<'_>,
    cursor: &mut Cursor<'_>,
    depth: usize,
) -> Result<PlanExpr, Unread>
    ensures { Answers (glue_at (value_at scope.now depth) cursor.old) result cursor.new }
{
    cursor.the_symbol(b"(").ok_or(Unread::Strange)?;
    let stream = boxed_value(alloc, scope, cursor, depth)?;
    cursor.the_symbol(b",").ok_or(Unread::Strange)?;
    let preds = boxed_value(alloc, scope, cursor, depth)?;
    cursor.the_symbol(b")").ok_or(Unread::Strange)?;
    Ok(PlanExpr::Glue {
        stream: stream.into_inner(),
        preds: preds.into_inner(),
    })
}

/// An operator that takes no plan, behind its word.
#[tactic(auto, unfolding(rule_grammar::specs::PlanReading::leaf_at))]
pub fn leaf(
    alloc: Global,
    scope: &Scope<'_>,
    cursor: &mut Cursor<'_>,
    depth: usize,
    flavour: Flavour,
) -> Result<PlanExpr, Unread>
    ensures { Answers (leaf_at (value_at scope.now depth) flavour cursor.old) result cursor.new }
{
    cursor.the_symbol(b"(").ok_or(Unread::Strange)?;
    let args = own_arguments(alloc, scope, cursor, depth, flavour)?;
    Ok(PlanExpr::Leaf { flavour, args })
}
