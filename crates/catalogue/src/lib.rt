//! Catalogue texts: what their statements say, which fault is the first, the catalogue that they
//! mean, and how one is printed.
#![tactic(auto)]

pub mod fault;
mod limits;
mod name_set;
mod names;
mod print;
mod read;
mod resolve;
mod statement;
mod statements;
pub mod theorems;
pub mod words;

pub use fault::CatFault;
pub use print::print_catalogue;
pub use read::read_catalogue;
