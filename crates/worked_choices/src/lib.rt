//! Worked choices: which plan costs least and what is on a frontier, said of two small queries by
//! rules that derive a few plans of each.
//!
//! The table of the first is read, or stored too, or stored twice; that of the second is read, or
//! the rows that one index gives, or those that two give. Each claim stands in both ways: of a plan
//! of which it holds, and refuted of one that comes close.
#![tactic(auto)]

ghost use Rattle.star_model.specs.Derivations.{IsLeast, IsOfGoal, OnFrontier};
ghost use Rattle.star_model.specs.declared.plans.Props.{Props};
ghost use Rattle.worked_choices.specs.Storing.{query, rules, read_alone, and_stored, stored_again};
ghost use Rattle.worked_choices.specs.Indexing as indexing;
ghost use Rattle.worked_choices.specs.Claims.{HasLeastCost, IsOneOf};
ghost use Rattle.worked_plans.specs.Derivations as tree;

/// The rules derive three vectors for the query's goal, and no other.
pub fn the_goal_has_three_vectors()
    ensures read { IsOfGoal query rules 1 0 read_alone }
    ensures stored { IsOfGoal query rules 1 0 and_stored }
    ensures again { IsOfGoal query rules 1 0 stored_again }
    ensures no_other { (v : Props) → IsOfGoal query rules 1 0 v → IsOneOf v }
{}

/// The table that is read alone costs least; the stored one costs more, though it is produced again
/// at less.
pub fn the_cheaper_is_least()
    ensures cheaper { HasLeastCost query rules tree.read_alone 1500 }
    ensures dearer { (v : Props) → IsLeast query rules tree.read_and_stored v → ⊥ }
{}

/// Neither of the first two covers the other, so both are on the frontier. The third is covered by
/// the second, and a vector that nothing derives isn't there, however little it costs.
pub fn two_are_on_the_frontier()
    ensures cheaper { OnFrontier query rules 1 0 read_alone }
    ensures dearer { OnFrontier query rules 1 0 and_stored }
    ensures covered { OnFrontier query rules 1 0 stored_again → ⊥ }
    ensures underived { OnFrontier query rules 1 0 (record read_alone { cost = 1 }) → ⊥ }
{}

/// The rows that both indexes give cost least of all that the rules derive. Those that one index
/// gives cost more, and so does the table.
pub fn the_intersection_is_least()
    ensures cheaper { HasLeastCost indexing.query indexing.rules tree.both_indexes 385 }
    ensures dearer { (v : Props) → IsLeast indexing.query indexing.rules indexing.by_one_index v
        → ⊥ }
{}
