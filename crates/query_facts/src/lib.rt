//! What planning asks of a query: the sets and counts of its parts.
#![tactic(auto)]

mod cardinality;
mod homes;
mod indexes;
mod join_keys;
mod sets;
pub mod theorems;
mod weighing;
mod widths;

pub use cardinality::{card, table_of};
pub use homes::{home, only_member, site_asked};
pub use indexes::{index_columns, is_index_of, is_index_on};
pub use join_keys::keys;
pub use sets::{crossing, eligible, is_equality, lies_in, touches, used};
pub use weighing::weigh;
pub use widths::width;
