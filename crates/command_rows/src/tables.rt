// Tables of runs and of calls over texts.
use crate::runs::Texts;
use crate::{judged, lines};
use row_tables::{Table, Tally, read_table};
use std::alloc::{AllocError, Global};
use std::io;
use std::rt::Files;

// What comes of the text of a row. The further files are a rule file, a catalogue and a query; of
// `query` the one is a catalogue.
fn answer(alloc: Global, table: &Table, text: &str) -> Result<String, AllocError> {
    let first = table.file(0, text);
    let texts = Texts {
        rules: first,
        catalogue: table.file(1, text),
        query: table.file(2, text),
    };
    match table.kind.as_bytes() {
        b"plan" => lines::plan(alloc, texts),
        b"faulty" => lines::faulty(alloc, text, texts),
        b"changed" => lines::changed(alloc, text, texts),
        b"long" => lines::long(alloc, text, texts),
        b"texts" => judged::planned(alloc, texts),
        b"frontier" => judged::listed(alloc, texts),
        b"check" => judged::checked(alloc, text),
        b"verify" => judged::verified(alloc, texts, text),
        b"first_line" => judged::first_line(alloc, texts),
        b"catalogue" => judged::catalogue(alloc, text),
        b"query" => judged::query(alloc, first, text),
        b"status" => judged::status(alloc, text),
        _ => String::from_str(alloc, "not asked"),
    }
}

/// Asks about each row of the table of a line, and prints what came.
pub fn run<R: Files + Print + AllocGlobal>(rt: &R, line: &str) -> io::Result<()> {
    let alloc = rt.alloc();
    let table = read_table(rt, line)?;
    let mut tally = Tally::new(alloc);
    for row in table.rows.as_slice() {
        let came = answer(alloc, &table, row.text.as_str())?;
        tally.add(row, came.as_str())?;
    }
    let told = tally.told(alloc)?;
    println!(rt; "> {line}\n{told}")
}
