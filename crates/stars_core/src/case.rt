// What the texts of a command say that plans.

ghost use Rattle.std.specs.Prelude.{◌≡◌};
ghost use Rattle.star_model.specs.Selectivity.{selects_of, weighed};

use lolepop::weigh;
use star_check::CheckedRules;
use star_model::query::Query;

/// The rules and the query that the texts of a command say.
#[derive(Drop)]
pub struct Case {
    pub rules: CheckedRules,
    /// Its predicates have the selectivities that the rules give.
    pub query: Query,
}

impl Case {
    /// The rules and a query that was read.
    pub fn new(rules: CheckedRules, mut query: Query) -> Case
        ensures rules { result.rules ≡ rules }
        ensures query { result.query ≡ weighed (selects_of rules) query }
    {
        weigh(&mut query, rules.selects());
        Case { rules, query }
    }
}
