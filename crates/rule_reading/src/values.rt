// Reading a value.
ghost use Rattle.rule_grammar.specs.ValueReading.{value_at};
ghost use Rattle.spelling.specs.Answers.{Answers};

use crate::scope::Scope;
use crate::value_rules::ValueRules;
use spelling::{Cursor, Unread};
use sqlite_items::Boxed;
use star_model::rules::ValueExpr;
use std::alloc::Global;

/// The value at the front of the lexemes, where at most `depth` values are open inside one another.
///
/// Values are read by recursion. The tokens of one statement that `sb_text::tokens` gave nest
/// brackets at most 32 deep.
pub fn value(
    alloc: Global,
    scope: &Scope<'_>,
    cursor: &mut Cursor<'_>,
    depth: usize,
) -> Result<ValueExpr, Unread>
    ensures { Answers (value_at scope.now depth cursor.old) result cursor.new }
{
    if depth == 0 {
        return Err(Unread::Strange);
    }
    ValueRules {
        alloc,
        // lent again, as the proof of a cycle of calls asks
        scope: &*scope,
        depth: depth - 1,
        inner: value,
    }
    .value(cursor)
}

/// The same in a box of its own, for where other lexemes are read while the value is held.
pub fn boxed_value(
    alloc: Global,
    scope: &Scope<'_>,
    cursor: &mut Cursor<'_>,
    depth: usize,
) -> Result<Boxed<ValueExpr>, Unread>
    ensures { Answers (value_at scope.now depth cursor.old) result cursor.new }
{
    let value = value(alloc, scope, cursor, depth)?;
    Ok(Boxed::new(alloc, value)?)
}
