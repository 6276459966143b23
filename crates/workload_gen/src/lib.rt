//! Workloads that a seed and a size determine: rules, a catalogue, a query over it, and tables.
#![tactic(auto)]

mod catalogue_text;
mod draws;
mod fault;
mod names;
mod query_text;
mod records;
mod rules_text;
mod tables;
pub mod theorems;
mod workload;

pub use fault::GenFault;
pub use workload::{Workload, make};
