// Reading the for-all clauses of alternatives.
ghost use Rattle.rule_grammar.specs.StarReading.{for_all_at, ranges_at, names_of};
ghost use Rattle.spelling.specs.Answers.{Answers};

use crate::names::free_name;
use crate::ranges::range;
use crate::scope::Scope;
use spelling::{Cursor, Unread};
use star_model::lists::List;
use star_model::rules::{ForAll, Param};
use std::alloc::Global;

// A for-all clause, behind its first word.
#[tactic(auto, unfolding(rule_grammar::specs::StarReading::for_all_at))]
fn for_all(
    alloc: Global,
    scope: &Scope<'_>,
    cursor: &mut Cursor<'_>,
    depth: usize,
) -> Result<ForAll, Unread>
    ensures { Answers (for_all_at scope.now depth cursor.old) result cursor.new }
{
    let name = free_name(alloc, scope.version(), cursor)?;
    cursor.the_word(b"in").ok_or(Unread::Strange)?;
    let range = range(alloc, scope, cursor, depth)?;
    Ok(ForAll { name, range })
}

/// The for-all clauses of an alternative. The range of each sees the parameters, and the names of
/// those before it.
#[tactic(auto, unfolding(rule_grammar::specs::StarReading::ranges_at))]
pub fn ranges(
    alloc: Global,
    version: u8,
    params: &[Param],
    cursor: &mut Cursor<'_>,
    depth: usize,
) -> Result<List<ForAll>, Unread>
    ensures { Answers (ranges_at (names_of version params.now) depth cursor.old) result cursor.new }
{
    let mut ranges = List::new(alloc);
    'clauses: while cursor.the_word(b"for").is_some() {
        let scope = Scope::new(version, params, ranges.as_slice());
        let range = for_all(alloc, &scope, cursor, depth)?;
        ranges.push(range)?;
    }
    Ok(ranges)
}
