// Goals, and their text.
ghost use Rattle.std.specs.Prelude.{◌≡◌};
ghost use Rattle.star_model.specs.Predicates.{all_quants};
ghost use Rattle.star_model.specs.WellFormed.{WellFormedQuery};

use star_model::plans::Goal;
use star_model::query::Query;
use star_model::sets::PredSet;
use star_value::all_quants;
use std::alloc::{AllocError, Global};
use table_set_memo::Memo;

/// The goal of the query.
pub fn own_goal(query: &Query) -> Goal
    requires { WellFormedQuery query.now }
    ensures { result ≡ record { tables = all_quants query.now; pushed = 0 } }
{
    Goal {
        tables: all_quants(query),
        pushed: PredSet::empty(),
    }
}

// The numbers from 1 of those below 32 that are in a set, with commas between.
fn numbers<F: Fn(u8) -> bool>(alloc: Global, is_in: F) -> Result<String, AllocError>
    requires { F.IsAlwaysCallable is_in }
{
    let mut text = String::new(alloc);
    for n in 0..32u8 {
        if is_in(n) {
            let between = if text.is_empty() { "" } else { ", " };
            text.push_str(format!(in alloc; "{between}{}", n + 1)?.as_str())?;
        }
    }
    Ok(text)
}

/// The text of a goal, as `goal {1, 2} pushed {}`.
pub fn goal_text(alloc: Global, goal: &Goal) -> Result<String, AllocError> {
    let tables = numbers(alloc, |n| goal.tables.has(n))?;
    let pushed = numbers(alloc, |n| goal.pushed.has(n))?;
    format!(in alloc; "goal {{{tables}}} pushed {{{pushed}}}")
}

/// The goals that the memo holds, in ascending order.
pub fn goals_of(alloc: Global, memo: &Memo) -> Result<Vec<Goal>, AllocError> {
    let mut goals = Vec::new(alloc);
    for place in 0..memo.len() {
        goals.push(*memo.goal_at(place))?;
    }
    goals.sort_unstable();
    Ok(goals)
}
