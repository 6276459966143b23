//! The text of a derivation: how it is printed and, from `derivation_reading`, how it is read.
#![tactic(auto)]

mod members;
mod print;
pub mod theorems;

pub use derivation_reading::{DerivFault, read_derivation};
pub use print::print_derivation;
