//! The rows of tables, from the records of their files, and their orders by columns.
#![tactic(auto)]

pub mod fault;
mod header;
mod index;
mod integer;
mod loading;
mod numbers;
mod rows;
mod table;
pub mod theorems;

pub use fault::TableFault;
pub use index::{RowOrder, build_index, compare_cells};
pub use loading::load;
pub use table::{Cell, Table};
