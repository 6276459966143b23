//! Lexemes: what the tokens of a text say, how they are laid out, read and written, and which of
//! its statements is the first that has a property. The grammars of the formats stand on it.
#![tactic(auto)]

mod cursor;
mod ending;
mod lookup;
mod pairs;
mod parts;
pub mod theorems;
mod unread;
mod writer;

pub use cursor::{Cursor, number_of, text_bytes};
pub use ending::Ending;
pub use lookup::found_in;
pub use pairs::paired;
pub use parts::{Printer, print_behind, print_call, print_joined, print_run};
pub use unread::Unread;
pub use writer::Writer;
