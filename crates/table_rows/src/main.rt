//! What comes of files as tables: their rows or their fault, and the orders of their rows, table by
//! table.
//!
//! A line of the input names a table of rows, as the library `row_tables` reads it, and a
//! catalogue. A text has the name of a table of the catalogue, the numbers of columns where an
//! order is asked, and behind `: ` the file. The answer has the number of rows and then their
//! values, by the catalogue's order of columns, with texts in quotes; or what a refusal says of the
//! file; or the numbers of the rows, from 0, in the order by the columns. The answers come from an
//! independent program, which shares nothing with this repository.
#![tactic(auto)]

mod files;
mod orders;
mod tables;

use row_tables::{Tally, read_table};
use std::alloc::{AllocError, Global};
use std::io::{self, BufRead, BufReader};
use std::rt::Files;

// What comes of a text over the catalogue.
fn answer(alloc: Global, kind: &str, catalogue: &str, text: &str) -> Result<String, AllocError> {
    let (name, file) = text.split_once(": ").unwrap_or((text, ""));
    match kind.as_bytes() {
        b"rows" => files::told_file(alloc, catalogue, name, file.as_bytes()),
        b"count" => files::front_of_told(alloc, catalogue, name, file.as_bytes()),
        b"line_ends" => files::told_long(alloc, catalogue, name, file),
        b"order" => orders::told(alloc, catalogue, name, file.as_bytes()),
        b"order_of_bytes" => orders::told_of_bytes(alloc, catalogue, name, file),
        _ => String::from_str(alloc, "not asked"),
    }
}

// Asks about each row of the table of a line, and prints what came.
fn run<R: Files + Print + AllocGlobal>(rt: &R, line: &str) -> io::Result<()> {
    let alloc = rt.alloc();
    let table = read_table(rt, line)?;
    let kind = table.kind.as_str();
    let mut tally = Tally::new(alloc);
    for row in table.rows.as_slice() {
        let text = row.text.as_str();
        let came = answer(alloc, kind, table.file(0, text), text)?;
        tally.add(row, came.as_str())?;
    }
    let told = tally.told(alloc)?;
    print!(rt; "> {line}\n{told}")
}

fn main(rt: HostRuntime) -> io::Result<()> {
    let alloc = rt.alloc();
    for line in BufReader::new(alloc, rt.reader())?.lines(alloc) {
        run(&rt, line?.as_str())?;
    }
    Ok(())
}
