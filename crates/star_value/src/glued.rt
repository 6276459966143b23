// The goal of a Glue. It takes no memory.

ghost use Rattle.std.specs.Prelude.{◌≡◌};
ghost use Rattle.star_model.specs.Expected.{ForGoal, goal_of};
ghost use Rattle.star_model.specs.WellFormed.{WellFormedQuery};

use query_facts::crossing;
use star_model::plans::Goal;
use star_model::query::Query;
use star_model::sets::{PredSet, QuantSet};

/// The goal of a Glue over these quantifiers: of the predicates, those that touch the quantifiers
/// and others are pushed.
pub fn glued_goal(query: &Query, tables: QuantSet, preds: PredSet) -> Goal
    requires { WellFormedQuery query.now }
    ensures { goal_of query.now tables preds ≡ ForGoal result.tables result.pushed }
{
    Goal {
        tables,
        pushed: preds.meet(crossing(query, tables)),
    }
}
