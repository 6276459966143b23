//! Tables of rows, for programs that compare what comes of texts with what is wanted.
//!
//! A table is a file with a row on each line: `TEXT => ANSWER`, or a text that is its own answer. A
//! line of a program's input names a table: what is asked of its texts, the file, further files
//! that this needs, and behind ` | ` a frame, in which each text stands for `…`, as `canonical
//! values.rows | star S(A stream) = give T(…);`. A frame of the answers may follow behind ` => `. A
//! further file `…` is the text itself.
//!
//! Texts are written with these marks: `¶` is a line end, `⟨feff⟩` the character of this
//! hexadecimal number; a part between two `` ` `` begins with a number and stands for so many
//! copies of the rest, each with its own number, from 1, for `@`. A name in braces that the file
//! `parts` has stands for the text that it gives there.
#![tactic(auto)]

mod marks;
mod tables;
mod tally;

pub use tables::{Row, Table, read_table};
pub use tally::Tally;
