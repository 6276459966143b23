//! Queries: what their texts say; and, from `query_facts`, the sets and counts of their parts that
//! planning asks for.
#![tactic(auto)]

mod columns;
mod comparisons;
pub mod fault;
mod items;
mod limits;
mod lookup;
mod names;
mod read;
mod resolve;
mod statement;
pub mod theorems;
mod types;
pub mod words;

pub use fault::QueryFault;
pub use query_facts::{
    card, crossing, eligible, home, index_columns, is_equality, is_index_of, is_index_on, keys,
    lies_in, only_member, site_asked, table_of, touches, used, weigh, width,
};
pub use read::read_query;
pub use words::{ColumnWords, ComparisonWords, ConstantWords, ItemWords, QueryWords, SideWords};
