//! Printing rule files: the canonical text of a file, and of each part of it.
#![tactic(auto)]

mod condition_print;
mod plan_print;
mod print;
mod star_print;
mod value_print;

pub use print::print_rules;
