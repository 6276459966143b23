//! Derivations: what their texts say, and which fault is the first.
#![tactic(auto)]

mod build;
mod chains;
pub mod fault;
mod heights;
mod nodes;
mod numbers;
mod places;
mod preorder;
mod read;
mod sets;
mod statement;
pub mod theorems;

pub use fault::DerivFault;
pub use read::read_derivation;
