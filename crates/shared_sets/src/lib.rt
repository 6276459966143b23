//! Sets of plans that are made once and asked for again: those of calls of STARs, and those that
//! Glue makes.
#![tactic(auto)]

mod equality;
mod glued_sets;
mod ref_table;
mod shared_set;
mod tables;
pub mod theorems;

pub use glued_sets::{GlueRequest, GluedSets};
pub use ref_table::{RefTable, StarCall};
pub use shared_set::SharedSet;
pub use tables::Tables;
