//! Calls of the search, and of a plan's cursor, that no command makes, over the files beside it: a
//! call for each line of the input, and what came of it.
//!
//! A line has the name of the call, those of a rule file, a catalogue and a query, and where the
//! call reads tables, those of their files. What is told of sets is as an independent program has
//! it, which shares nothing with this repository.
#![tactic(auto)]

mod asked;
mod batches;
mod calls;
mod expanded;
mod goals;
mod kept;
mod sets;
mod texts;

use sb_outside::MemoryShelf;
use std::alloc::{AllocError, Global};
use std::fs;
use std::io::{self, BufRead, BufReader};
use std::rt::Files;

// The words of a line, with one space between two.
fn words_of(alloc: Global, line: &str) -> Result<Vec<String>, AllocError> {
    let mut words = Vec::new(alloc);
    for word in line.split(' ') {
        words.push(String::from_str(alloc, word)?)?;
    }
    Ok(words)
}

// A shelf of the files with these names.
fn shelf_of<R: Files + AllocGlobal>(rt: &R, names: &[String]) -> io::Result<MemoryShelf> {
    let alloc = rt.alloc();
    let mut files = Vec::new(alloc);
    for name in names {
        let bytes = fs::read(rt, name.as_str())?;
        files.push((String::from_str(alloc, name.as_str())?, bytes))?;
    }
    Ok(MemoryShelf {
        files,
        failing: Vec::new(alloc),
        calls: 0,
        faults: 0,
        taken: 0,
        last: None,
    })
}

// Makes the call of a line, and prints what came of it.
fn run<R: Files + Print + AllocGlobal>(rt: &R, line: &str) -> io::Result<()> {
    let alloc = rt.alloc();
    let words = words_of(alloc, line)?;
    let [call, rules, catalogue, query, tables @ ..] = words.as_slice() else {
        return println!(rt; "> {line}\nfewer than four words");
    };
    let rules = fs::read_to_string(rt, rules.as_str())?;
    let catalogue = fs::read_to_string(rt, catalogue.as_str())?;
    let query = fs::read_to_string(rt, query.as_str())?;
    let mut shelf = shelf_of(rt, tables)?;
    let told = texts::answer(
        alloc,
        call.as_str(),
        rules.as_bytes(),
        catalogue.as_bytes(),
        query.as_bytes(),
        &mut shelf,
    )?;
    println!(rt; "> {line}\n{told}")
}

fn main(rt: HostRuntime) -> io::Result<()> {
    let alloc = rt.alloc();
    for line in BufReader::new(alloc, rt.reader())?.lines(alloc) {
        run(&rt, line?.as_str())?;
    }
    Ok(())
}
