//! The search for the best plans of one goal, over a memo that has the sets of the goals for which
//! it asks.
#![tactic(auto)]

mod arms;
mod bodies;
mod goals;
mod operators;

pub use goals::goal_plans;
