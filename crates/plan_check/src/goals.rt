// Goals: the root STAR that a goal node calls, and the target of its plans. None of it takes
// memory.

ghost use Rattle.std.specs.Prelude.{◌≡◌, ◌&&◌, not, nat_eq};
ghost use Rattle.std.specs.Option.{option_map};
ghost use Rattle.star_model.specs.Expected.{Call, ForGoal, may_split, root_call, goal_body};
ghost use Rattle.star_model.specs.Goals.{is_target};
ghost use Rattle.star_model.specs.Sets.{union, meet};
ghost use Rattle.star_model.specs.WellFormed.{WellFormedQuery};

use query_facts::{eligible, used};
use star_model::plans::{Goal, Props};
use star_model::query::Query;
use star_model::sets::QuantSet;
use star_value::{Env, root_values};

// Whether these are two nonempty disjoint sets whose union is the set.
fn is_split(tables: QuantSet, left: QuantSet, right: QuantSet) -> bool
    ensures { result ≡ (nat_eq (union left right) tables && nat_eq (meet left right) 0
        && not (nat_eq left 0) && not (nat_eq right 0)) }
{
    let none = QuantSet::empty();
    left.union(right) == tables && left.meet(right) == none && left != none && right != none
}

// Whether the goal may be derived through the split: through none where it has one quantifier.
fn may_split(tables: QuantSet, split: &Option<(QuantSet, QuantSet)>) -> bool
    ensures { result ≡ may_split tables split.now }
{
    match split {
        None => tables.len() == 1,
        Some((left, right)) => tables.len() != 1 && is_split(tables, *left, *right),
    }
}

// The name of the root STAR of the split, and the values of its parameters.
fn root_call(goal: Goal, split: &Option<(QuantSet, QuantSet)>) -> (&'static [u8], Env)
    ensures { Call result.0.now result.1 ≡ root_call goal.tables goal.pushed split.now }
{
    let name = match split {
        None => b"AccessRoot".as_slice(),
        Some(_) => b"JoinRoot".as_slice(),
    };
    (name, root_values(goal, *split))
}

// What the body of a goal node stands against that stands against the wanted goal: a call of a root
// STAR. None where the node has another goal, or a split that the goal hasn't.
pub fn goal_body(
    wanted: Goal,
    goal: &Goal,
    split: &Option<(QuantSet, QuantSet)>,
) -> Option<(&'static [u8], Env)>
    ensures { option_map (λ p. Call p.0.now p.1) result
        ≡ goal_body goal.now split.now (ForGoal wanted.tables wanted.pushed) }
{
    if goal.tables == wanted.tables
        && goal.pushed == wanted.pushed
        && may_split(wanted.tables, split)
    {
        Some(root_call(wanted, split))
    } else {
        None
    }
}

// Whether the vector has the goal's tables, their columns that the query names, and their
// predicates with the pushed ones.
pub fn is_target(query: &Query, goal: &Goal, props: &Props) -> bool
    requires { WellFormedQuery query.now }
    ensures { result ≡ is_target query.now goal.now.tables goal.now.pushed props.now }
{
    props.tables == goal.tables
        && props.cols == used(query, goal.tables)
        && props.preds == eligible(query, goal.tables).union(goal.pushed)
}
