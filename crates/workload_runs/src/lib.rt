//! Runs of generated workloads, in memory: what planning and running the query of a seed and a size
//! comes to, in numbers.
#![tactic(auto)]

mod counting;
mod loading;
mod reading;
mod running;
mod tally;
pub mod theorems;

pub use running::run_workload;
pub use tally::Tally;
pub use workload_gen::GenFault;
