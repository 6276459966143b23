//! The sets of plans of goals, of which each is made once.
#![tactic(auto)]

mod memo;
pub mod theorems;

pub use memo::Memo;
