// Reading the alternatives of STARs.
ghost use Rattle.rule_grammar.specs.StarReading.{when_at, body_at, conditional_body_at, alternative_at, alternatives_at, names_of};
ghost use Rattle.spelling.specs.Answers.{Answers};

use crate::conditions::condition;
use crate::for_alls::ranges;
use crate::plans::plan;
use crate::scope::Scope;
use spelling::{Cursor, Unread, paired};
use star_model::lists::List;
use star_model::rules::{Alternative, Condition, Param, PlanExpr};
use std::alloc::Global;

// The condition, where there is one.
#[tactic(auto, unfolding(rule_grammar::specs::StarReading::when_at))]
fn when(
    alloc: Global,
    scope: &Scope<'_>,
    cursor: &mut Cursor<'_>,
    depth: usize,
) -> Result<Option<Condition>, Unread>
    ensures { Answers (when_at scope.now depth cursor.old) result cursor.new }
{
    if cursor.the_word(b"when").is_none() {
        return Ok(None);
    }
    let condition = condition(alloc, scope, cursor, depth)?;
    Ok(Some(condition))
}

// The plan behind `give`.
#[tactic(auto, unfolding(rule_grammar::specs::StarReading::body_at))]
fn body(
    alloc: Global,
    scope: &Scope<'_>,
    cursor: &mut Cursor<'_>,
    depth: usize,
) -> Result<PlanExpr, Unread>
    ensures { Answers (body_at scope.now depth cursor.old) result cursor.new }
{
    cursor.the_word(b"give").ok_or(Unread::Strange)?;
    plan(alloc, scope, cursor, depth)
}

// What stands behind the for-all clauses: the condition, where there is one, and the plan.
#[tactic(auto, unfolding(rule_grammar::specs::StarReading::conditional_body_at))]
fn conditional_body(
    alloc: Global,
    scope: &Scope<'_>,
    cursor: &mut Cursor<'_>,
    depth: usize,
) -> Result<(Option<Condition>, PlanExpr), Unread>
    ensures { Answers (conditional_body_at scope.now depth cursor.old) result cursor.new }
{
    let condition = when(alloc, scope, cursor, depth)?;
    let body = body(alloc, scope, cursor, depth);
    paired(condition, body)
}

// An alternative of a STAR with these parameters.
#[tactic(auto, unfolding(rule_grammar::specs::StarReading::alternative_at))]
fn alternative(
    alloc: Global,
    version: u8,
    params: &[Param],
    cursor: &mut Cursor<'_>,
    depth: usize,
) -> Result<Alternative, Unread>
    ensures { Answers (alternative_at (names_of version params.now) depth cursor.old) result
        cursor.new }
{
    let ranges = ranges(alloc, version, params, cursor, depth)?;
    let scope = Scope::new(version, params, ranges.as_slice());
    let rest = conditional_body(alloc, &scope, cursor, depth);
    let (ranges, (condition, body)) = paired(ranges, rest)?;
    Ok(Alternative {
        ranges,
        condition,
        body,
    })
}

/// The alternatives of a STAR with these parameters, with bars between.
#[tactic(auto, unfolding(rule_grammar::specs::StarReading::alternatives_at))]
pub fn alternatives(
    alloc: Global,
    version: u8,
    params: &[Param],
    cursor: &mut Cursor<'_>,
    depth: usize,
) -> Result<List<Alternative>, Unread>
    ensures { Answers (alternatives_at (names_of version params.now) depth cursor.old) result
        cursor.new }
{
    let mut alternatives = List::new(alloc);
    loop {
        let alternative = alternative(alloc, version, params, cursor, depth)?;
        alternatives.push(alternative)?;
        if cursor.the_symbol(b"|").is_none() {
            return Ok(alternatives);
        }
    }
}
