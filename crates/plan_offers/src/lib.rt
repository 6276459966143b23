//! What operators, references and goals make of the members of sets of plans, offered to a set
//! before any of it is made: a plan that the set covers already takes no memory.
#![tactic(auto)]

mod coverage;
mod goals;
mod operators;
mod references;
mod target;

pub use coverage::is_covered;
pub use goals::add_goals;
pub use operators::{binary_plans, leaf_plans, unary_plans};
pub use references::add_references;
pub use target::Target;
