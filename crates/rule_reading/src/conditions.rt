// Reading a condition.
ghost use Rattle.rule_grammar.specs.ConditionReading.{condition_at};
ghost use Rattle.spelling.specs.Answers.{Answers};

use crate::condition_rules::ConditionRules;
use crate::scope::Scope;
use spelling::{Cursor, Unread};
use star_model::rules::Condition;
use std::alloc::Global;

/// The condition at the front of the lexemes, where at most `depth` values and conditions are open
/// inside one another.
///
/// Conditions are read by recursion. The tokens of one statement that `sb_text::tokens` gave nest
/// brackets at most 32 deep.
pub fn condition(
    alloc: Global,
    scope: &Scope<'_>,
    cursor: &mut Cursor<'_>,
    depth: usize,
) -> Result<Condition, Unread>
    ensures { Answers (condition_at scope.now depth cursor.old) result cursor.new }
{
    if depth == 0 {
        return Err(Unread::Strange);
    }
    ConditionRules {
        alloc,
        // lent again, as the proof of a cycle of calls asks
        scope: &*scope,
        depth: depth - 1,
        inner: condition,
    }
    .condition(cursor)
}
