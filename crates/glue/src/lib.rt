//! Glue, the enforcer of required properties: chains of SORT, SHIP and STORE over the members of a
//! set of plans.
#![tactic(auto)]

mod chains;
mod gluing;
mod offering;
pub mod theorems;

pub use gluing::glue;
