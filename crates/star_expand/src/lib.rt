//! The sets of plans of all goals that a goal asks for, each made once.
#![tactic(auto)]

mod answering;
mod expanding;
pub mod theorems;

pub use answering::{best, expand_query, frontier};
pub use asked_goals::closed;
pub use expanding::expand;
pub use plan_choice::choose;
