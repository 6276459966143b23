//! The places of a rule file to which a search for a goal's plans comes, and the bindings that it
//! has there.
#![tactic(auto)]

mod bindings;
mod roots;
mod search;
pub mod theorems;

pub use bindings::{with_number, with_value};
pub use roots::{root_name, star_called};
pub use search::{Part, Search};
