// The numbers of a run.

use star_model::num::Num;

/// What planning and running the query of a workload comes to.
#[derive(Clone, Copy, Debug, PartialEq, Eq)]
pub struct Tally {
    /// How many goals the query asks for, its own among them.
    pub goals: usize,
    /// How many vectors are on the frontiers of these goals, in sum.
    pub kept: u128,
    /// The cost of a cheapest plan.
    pub cost: Num,
    /// How many rows the query has.
    pub rows: usize,
}
