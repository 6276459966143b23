//! What the values, conditions and ranges of the rule language mean for a query, under bindings.
#![tactic(auto)]

mod arguments;
mod bindings;
mod conditions;
mod copies;
mod env;
mod glued;
mod meaning;
mod numbers;
mod predicates;
mod ranges;
mod readings;
mod roots;
mod sets;
mod streams;

pub use arguments::{operator, preds, stream};
pub use bindings::{meets, values};
pub use conditions::holds;
pub use env::Env;
pub use glued::glued_goal;
pub use meaning::value;
pub use numbers::{NumberedIter, numbered};
pub use ranges::{RangeIter, range};
pub use roots::root_values;
pub use sets::all_quants;
pub use streams::tables_of;
