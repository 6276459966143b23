//! Rule files: what their texts say.
#![tactic(auto)]

mod definition;
mod lexeme_limits;
mod limits;
mod read;
mod statement;
mod statements;
pub mod theorems;
mod version;

pub use read::read_rules;
pub use rule_printing::print_rules;
