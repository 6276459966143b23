//! Which of two vectors of properties is better, and which satisfy what is required.
#![tactic(auto)]

mod canonical;
mod order;
mod ranked;
mod requirements;
pub mod theorems;

pub use canonical::canon;
pub use order::better;
pub use ranked::Ranked;
pub use requirements::satisfies;
