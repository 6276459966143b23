//! What comes of calls over a query, table by table: what the rules' expressions mean for it, what
//! is in its parts, the selectivities of its predicates, and what operators make of its tables:
//! vectors, the numbers of plans' nodes, which plans a set keeps, what Glue makes of a plan, and a
//! derivation beside its plan.
//!
//! A line of the input names a table, as the library `row_tables` reads it, a catalogue, a query,
//! and a rule file for the formulas and the selectivities. The texts have the operators of a plan
//! between `; `, each behind its inputs: `ACCESS_HEAP {1} {}; ACCESS_HEAP {2} {1}; JOIN_NL {}` is a
//! join of two accesses. Quantifiers, predicates and columns have numbers from 1, sites and indexes
//! their names. An answer is `none` where the last operator isn't applicable. The answers come from
//! an independent program, which shares nothing with this repository.
#![tactic(auto)]

mod counts;
mod derivations;
mod glued;
mod meanings;
mod names;
mod offers;
mod operators;
mod parts;
mod planned;
mod questions;
mod texts;
mod values;
mod vectors;
mod weights;

use row_tables::{Tally, read_table};
use std::io::{self, BufRead, BufReader};
use std::rt::Files;

// Asks about each row of the table of a line, and prints what came.
fn run<R: Files + Print + AllocGlobal>(rt: &R, line: &str) -> io::Result<()> {
    let alloc = rt.alloc();
    let table = read_table(rt, line)?;
    let mut tally = Tally::new(alloc);
    for row in table.rows.as_slice() {
        let came = texts::answer(alloc, &table, row.text.as_str())?;
        tally.add(row, came.as_str())?;
    }
    let told = tally.told(alloc)?;
    print!(rt; "> {line}\n{told}")
}

fn main(rt: HostRuntime) -> io::Result<()> {
    let alloc = rt.alloc();
    for line in BufReader::new(alloc, rt.reader())?.lines(alloc) {
        run(&rt, line?.as_str())?;
    }
    Ok(())
}
