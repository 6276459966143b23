// The first goal that a goal asks for and the memo doesn't hold.

ghost use Rattle.std.specs.Prelude.{◌≡◌, true, ◌↔◌, IsTrue, Some};
ghost use Rattle.star_model.specs.Expected.{may_split, root_call};
ghost use Rattle.star_model.specs.Goals.{IsGoal};
ghost use Rattle.star_model.specs.WellFormed.{WellFormedQuery};
ghost use Rattle.exchange.specs.Asking.{AsksFrom};
ghost use Rattle.search_places.specs.Memos.{FirstMissing, HoldsAsked};
ghost use Rattle.search_places.specs.Searching.{IsPosed};

use crate::places::missing_in_call;
use search_places::{Search, root_name};
use star_check::CheckedRules;
use star_model::plans::Goal;
use star_model::query::Query;
use star_model::sets::QuantSet;
use star_value::root_values;
use table_set_memo::Memo;

/// The first goal that the split of this goal asks for, and that the memo doesn't hold. It takes no
/// memory.
pub fn missing_in_split<'a>(
    rules: &'a CheckedRules,
    query: &'a Query,
    goal: &Goal,
    split: (QuantSet, QuantSet),
    memo: &'a Memo,
) -> Option<Goal>
    requires query { WellFormedQuery query.now }
    requires goal { IsGoal query.now goal.now.tables goal.now.pushed }
    requires split { may_split goal.now.tables (Some split) ≡ true }
    ensures { FirstMissing memo.now (AsksFrom query.now rules.now
        (root_call goal.now.tables goal.now.pushed (Some split))) result }
{
    let search = Search {
        rules,
        query,
        memo,
        goal: *goal,
    };
    missing_in_root(&search, split)
}

// The first goal that the root STAR asks for under the split's values, and that isn't held.
fn missing_in_root(search: &Search<'_>, split: (QuantSet, QuantSet)) -> Option<Goal>
    requires posed { IsPosed search.now }
    requires split { may_split search.now.goal.tables (Some split) ≡ true }
    ensures { FirstMissing search.now.memo.now
        (AsksFrom search.now.query.now search.now.rules.now
        (root_call search.now.goal.tables search.now.goal.pushed (Some split))) result }
{
    let (left, right) = split;
    let root = root_name(search.rules, Some((left, right)));
    missing_in_call(search, root, &root_values(search.goal, Some((left, right))))
}

/// Whether the memo holds each goal for which this one asks. It takes no memory.
pub fn closed(rules: &CheckedRules, query: &Query, goal: &Goal, memo: &Memo) -> bool
    requires query { WellFormedQuery query.now }
    requires goal { IsGoal query.now goal.now.tables goal.now.pushed }
    ensures { IsTrue result ↔ HoldsAsked query.now rules.now memo.now goal.now }
{
    rules.stands();
    if goal.tables.len() == 1 {
        // It leads to no Glue.
        return true;
    }
    for split in goal.tables.splits() {
        if missing_in_split(rules, query, goal, split, memo).is_some() {
            return false;
        }
    }
    true
}
