//! Sets of plans of which none covers another.
#![tactic(auto)]

mod members;
mod plan_set;
pub mod theorems;

pub use plan_set::{Offer, PlanIter, PlanSet};
