//! The rows of plans in code: environments, their values, the predicates that they make true, their
//! orders, and searches among them.
#![tactic(auto)]

mod codes;
mod comparing;
mod environments;
mod found;
mod groups;
mod meeting;
mod numbers;
mod pins;
mod scans;
mod searches;
mod tables;
pub mod theorems;
mod values;

pub use comparing::{compare_keys, sort_rows};
pub use environments::Env;
pub use found::{push_from_groups, push_from_sorted};
pub use groups::Groups;
pub use meeting::{keep_meeting, lay_rows, meets, push_all_meeting, push_beside, push_meeting};
pub use numbers::{RowNumbers, keep_common};
pub use pins::Pins;
pub use scans::{heap_rows, index_order, placed_rows, row_count};
pub use searches::asked_rows;
pub use tables::{Tables, learn_types};
pub use values::{makes_true, value};
