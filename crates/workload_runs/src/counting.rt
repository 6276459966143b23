// Counting what a memo holds.

ghost use Rattle.std.specs.Prelude.{◌≡◌, ◌<◌, length, sum_by, slice_get, Some};
ghost use Rattle.std.specs.Option.{option_map};
ghost use Rattle.star_model.specs.declared.query.Query.{Query};
ghost use Rattle.star_model.specs.declared.rules.RuleFile.{RuleFile};
ghost use Rattle.search_places.specs.Memos.{HoldsFrontiers};
ghost use Rattle.star_expand.specs.Expanding.{HoldsQueryGoals};
ghost use Rattle.workload_runs.specs.AskedFrontiers.{IsAsked, IsKept};
ghost use Rattle.workload_runs.specs.Counts.{IsCountOf};

use table_set_memo::Memo;

// How many plans the set at this place has.
fn plans_at(memo: &Memo, place: usize) -> usize
    requires { place < length memo.now }
    ensures { option_map (λ s. length s.1) (slice_get memo.now place) ≡ Some result }
{
    memo.each_once();
    match memo.get(memo.goal_at(place)) {
        Some(plans) => plans.len(),
        None => unreachable!(),
    }
}

// How many plans the sets of the memo have, in sum. The sum is wide enough for any sets.
fn count_plans(memo: &Memo) -> u128
    ensures { result ≡ sum_by (λ s. length s.1) memo.now }
{
    let mut count: u128 = 0;
    for place in 0..memo.len() {
        count += plans_at(memo, place) as u128;
    }
    count
}

/// How many goals a query asks for, if the memo holds what it asks for.
pub fn count_goals(memo: &Memo) -> usize
    ensures { (q : Query) (rules : RuleFile) → HoldsQueryGoals q rules memo.now
        → IsCountOf (IsAsked q rules) result }
{
    memo.each_once();
    memo.len()
}

/// How many vectors are on the frontiers of these goals, in sum.
pub fn count_kept(memo: &Memo) -> u128
    ensures { (q : Query) (rules : RuleFile) → HoldsQueryGoals q rules memo.now
        → HoldsFrontiers q rules memo.now → IsCountOf (IsKept q rules) result }
{
    memo.each_once();
    count_plans(memo)
}
