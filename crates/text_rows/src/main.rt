//! What comes of texts, table by table: their tokens; formulas, with their values and the nodes
//! that let them fall; rule files and catalogues, as they are printed or with their faults.
//!
//! A line of the input names a table, as the library `row_tables` reads it. The answers come from
//! an independent program, which shares nothing with this repository.
#![tactic(auto)]

mod catalogues;
mod formulas;
mod lexemes;
mod rules;

use row_tables::{Tally, read_table};
use std::alloc::{AllocError, Global};
use std::io::{self, BufRead, BufReader};
use std::rt::Files;

// The text that is printed of a formula, a rule file or a catalogue.
fn canonical(alloc: Global, kind: &str, text: &str) -> Result<String, AllocError> {
    match kind.as_bytes() {
        b"formula" => formulas::canonical(alloc, text),
        b"rules" => rules::canonical(alloc, text),
        _ => catalogues::canonical(alloc, text),
    }
}

// The text that is printed, and what is printed of that if it is another.
fn printed(alloc: Global, kind: &str, text: &str) -> Result<String, AllocError> {
    let first = canonical(alloc, kind, text)?;
    let again = canonical(alloc, kind, first.as_str())?;
    if again.as_str() == first.as_str() {
        return Ok(first);
    }
    format!(in alloc; "{first} and then {again}")
}

// What comes of a text.
fn answer(alloc: Global, kind: &str, text: &str) -> Result<String, AllocError> {
    match kind.as_bytes() {
        b"tokens" => lexemes::told(alloc, text),
        b"value" => formulas::value(alloc, text),
        b"offence" => formulas::offence(alloc, text),
        b"verdict" => rules::verdict(alloc, text),
        b"formula" | b"rules" | b"catalogue" => printed(alloc, kind, text),
        _ => String::from_str(alloc, "not asked"),
    }
}

// Asks about each row of the table of a line, and prints what came.
fn run<R: Files + Print + AllocGlobal>(rt: &R, line: &str) -> io::Result<()> {
    let alloc = rt.alloc();
    let table = read_table(rt, line)?;
    let mut tally = Tally::new(alloc);
    for row in table.rows.as_slice() {
        let came = answer(alloc, table.kind.as_str(), row.text.as_str())?;
        tally.add(row, came.as_str())?;
    }
    let told = tally.told(alloc)?;
    print!(rt; "> {line}\n{told}")
}

fn main(rt: HostRuntime) -> io::Result<()> {
    let alloc = rt.alloc();
    for line in BufReader::new(alloc, rt.reader())?.lines(alloc) {
        run(&rt, line?.as_str())?;
    }
    Ok(())
}
