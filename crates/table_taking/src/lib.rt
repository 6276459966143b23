//! The tables of a query, each taken once from a shelf.
#![tactic(auto)]

mod lines;
mod names;
mod numbers;
mod one_table;
mod stop;
mod taking;
pub mod theorems;
mod unread;

pub use stop::Stop;
pub use taking::take_tables;
pub use unread::unread_line;
