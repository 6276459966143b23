// What a goal wants of its plans.

ghost use Rattle.std.specs.Prelude.{◌≡◌};
ghost use Rattle.star_model.specs.WellFormed.{WellFormedQuery};
ghost use Rattle.plan_offers.specs.Targets.{target_of, meets_target};

use query_facts::{eligible, used};
use star_model::columns::ColSet;
use star_model::plans::{Goal, Props};
use star_model::query::Query;
use star_model::sets::PredSet;

/// A goal with what its plans must have: these tables, columns and predicates and no others.
#[derive(Clone, Copy)]
pub struct Target {
    pub goal: Goal,
    pub cols: ColSet,
    pub preds: PredSet,
}

impl Target {
    /// The columns of the goal's quantifiers that the query names, and their own predicates with
    /// the pushed ones.
    pub fn of_goal(query: &Query, goal: Goal) -> Target
        requires { WellFormedQuery query.now }
        ensures { result ≡ target_of query.now goal }
    {
        Target {
            goal,
            cols: used(query, goal.tables),
            preds: eligible(query, goal.tables).union(goal.pushed),
        }
    }

    /// Whether a plan with this vector is one of the goal's. It takes no memory.
    pub fn is_met(&self, props: &Props) -> bool
        ensures { result ≡ meets_target self.now props.now }
    {
        props.tables == self.goal.tables && props.cols == self.cols && props.preds == self.preds
    }
}
