//! The text of a query's rows, from its plan and its tables.
#![tactic(auto)]

mod answering;

pub use answering::rows_text;
