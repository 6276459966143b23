//! Rows of plans as what they pick for each quantifier, and their text.
#![tactic(auto)]

mod printing;
mod rows;
mod texts;

pub use printing::print_rows;
pub use rows::{Pick, Row};
