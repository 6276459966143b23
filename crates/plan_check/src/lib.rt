//! Whether the rules derive a plan as a derivation says, judged by definition and without a search.
#![tactic(auto)]

mod answers;
mod bindings;
mod bodies;
mod chains;
mod goals;
mod judging;
mod parts;
mod results;

pub use answers::NotDerived;
pub use judging::check_derivation;
