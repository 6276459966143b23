//! Formulas of costs and of selectivities: which text spells one, how it is read and printed; and,
//! from `formula_value`, what it comes to.
#![tactic(auto)]

mod cursor;
pub mod formula_word;
mod nodes;
mod print;
mod read;
mod rules;
pub mod theorems;
mod words;

pub use formula_value::eval;
pub use print::{print_formula, write_formula};
pub use read::{read_formula, read_select};
