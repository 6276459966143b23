//! The tokens of a text and its statements.
//!
//! All texts (rule files, catalogues, queries, derivations) are made of the same tokens: words,
//! numbers, texts in quotes and symbols, with white space and comments between them. A statement
//! ends with `;`.
#![tactic(auto)]

mod depth;
mod front;
mod reader;
mod statement;
pub mod theorems;
mod token;

pub use reader::tokens;
pub use statement::{Statement, StatementIter, statements};
pub use token::{TextFault, Token, TokenKind};
