//! The plan that is chosen for a query, and the vectors of its frontier in the order of their
//! lines.
#![tactic(auto)]

mod choosing;
mod line_order;
mod listing;
pub mod theorems;

pub use choosing::choose;
pub use listing::listed_frontier;
