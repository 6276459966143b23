// Reading a range.
ghost use Rattle.rule_grammar.specs.ValueReading.{range_at};
ghost use Rattle.spelling.specs.Answers.{Answers};

use crate::heads::range_head;
use crate::scope::Scope;
use crate::value_rules::ValueRules;
use crate::values::value;
use rule_grammar::words::RangeHead;
use spelling::{Cursor, Unread};
use star_model::rules::Range;
use std::alloc::Global;

/// The range at the front of the lexemes, where at most `depth` values are open inside one another.
#[tactic(auto, unfolding(rule_grammar::specs::ValueReading::range_at))]
pub fn range(
    alloc: Global,
    scope: &Scope<'_>,
    cursor: &mut Cursor<'_>,
    depth: usize,
) -> Result<Range, Unread>
    ensures { Answers (range_at scope.now depth cursor.old) result cursor.new }
{
    let values = ValueRules {
        alloc,
        scope,
        depth,
        inner: value,
    };
    let word = cursor.word().ok_or(Unread::Strange)?;
    match range_head(word) {
        RangeHead::Indexes => Ok(Range::Indexes(values.one(cursor)?.into_inner())),
        RangeHead::Sites => Ok(Range::Sites),
        RangeHead::Members => Ok(Range::Members(values.one(cursor)?.into_inner())),
        RangeHead::Each => Ok(Range::Each(values.one(cursor)?.into_inner())),
        RangeHead::Other => Err(Unread::Strange),
    }
}
