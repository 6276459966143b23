//! The monotone check of cost formulas: Ok means nondecreasing.
#![tactic(auto)]

mod walk;

pub use walk::{MonoFault, check};
