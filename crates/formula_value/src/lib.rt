//! The whole numbers that cost formulas come to.
#![tactic(auto)]

mod evaluate;

pub use evaluate::eval;
