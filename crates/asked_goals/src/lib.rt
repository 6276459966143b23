//! Which goals another asks for, as far as a memo doesn't hold them: found by a walk over the
//! rules, one at a time. It takes no memory.
#![tactic(auto)]

mod glues;
mod goals;
mod places;
pub mod theorems;

pub use goals::{closed, missing_in_split};
