// Reading the arguments of operators and references.
ghost use Rattle.std.specs.Prelude.{◌≡◌};
ghost use Rattle.star_model.specs.WellFormedRules.{arguments_of};
ghost use Rattle.rule_grammar.specs.ValueReading.{value_at};
ghost use Rattle.rule_grammar.specs.PlanReading.{counted, arguments_at, own_arguments_at, more_arguments_at};
ghost use Rattle.spelling.specs.Answers.{Answers};

use crate::scope::Scope;
use crate::values::value;
use spelling::{Cursor, Unread};
use star_model::lists::List;
use star_model::rules::{Flavour, ValueExpr};
use std::alloc::Global;

// How many arguments an operator takes beside its plans.
fn arguments_of(flavour: Flavour) -> usize
    ensures { result ≡ arguments_of flavour }
{
    match flavour {
        Flavour::AccessIndex => 3,
        Flavour::AccessHeap | Flavour::Get | Flavour::Probe => 2,
        Flavour::JoinMerge | Flavour::JoinHash => 2,
        Flavour::Filter | Flavour::Sort | Flavour::Store | Flavour::Ship => 1,
        Flavour::JoinNl => 1,
        Flavour::Intersect => 0,
    }
}

// The arguments, where they are as many as the operator takes.
fn counted(flavour: Flavour, arguments: List<ValueExpr>) -> Option<List<ValueExpr>>
    ensures { result ≡ counted flavour arguments }
{
    if arguments.len() == arguments_of(flavour) {
        Some(arguments)
    } else {
        None
    }
}

/// Values with commas between.
#[tactic(auto, unfolding(rule_grammar::specs::PlanReading::arguments_at))]
pub fn arguments(
    alloc: Global,
    scope: &Scope<'_>,
    cursor: &mut Cursor<'_>,
    depth: usize,
) -> Result<List<ValueExpr>, Unread>
    ensures { Answers (arguments_at (value_at scope.now depth) cursor.old) result cursor.new }
{
    let mut arguments = List::new(alloc);
    loop {
        let argument = value(alloc, scope, cursor, depth)?;
        arguments.push(argument)?;
        if cursor.the_symbol(b",").is_none() {
            return Ok(arguments);
        }
    }
}

/// As many values with commas between as the operator takes, and the bracket behind them.
#[tactic(auto, unfolding(rule_grammar::specs::PlanReading::own_arguments_at))]
pub fn own_arguments(
    alloc: Global,
    scope: &Scope<'_>,
    cursor: &mut Cursor<'_>,
    depth: usize,
    flavour: Flavour,
) -> Result<List<ValueExpr>, Unread>
    ensures { Answers (own_arguments_at (value_at scope.now depth) flavour cursor.old) result
        cursor.new }
{
    let arguments = arguments(alloc, scope, cursor, depth)?;
    cursor.the_symbol(b")").ok_or(Unread::Strange)?;
    counted(flavour, arguments).ok_or(Unread::Strange)
}

/// The arguments of an operator behind its plans, which may be all that it takes.
#[tactic(auto, unfolding(rule_grammar::specs::PlanReading::more_arguments_at))]
pub fn more_arguments(
    alloc: Global,
    scope: &Scope<'_>,
    cursor: &mut Cursor<'_>,
    depth: usize,
    flavour: Flavour,
) -> Result<List<ValueExpr>, Unread>
    ensures { Answers (more_arguments_at (value_at scope.now depth) flavour cursor.old) result
        cursor.new }
{
    if arguments_of(flavour) == 0 {
        cursor.the_symbol(b")").ok_or(Unread::Strange)?;
        return Ok(List::new(alloc));
    }
    cursor.the_symbol(b",").ok_or(Unread::Strange)?;
    own_arguments(alloc, scope, cursor, depth, flavour)
}
