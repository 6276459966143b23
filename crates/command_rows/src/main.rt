//! Runs of `stars` in memory: a run over the files beside it for each line of the input that begins
//! with `shown` or `failing`, and what came of it; and for each other line a table of runs.
//!
//! After `shown` a line has how many lines of the output are shown, `all`, or `rows` for those with
//! the query's rows, and then the words of the run. Few are shown where several plans cost the
//! same, since any of them may be printed. After `failing` it has the number of the shelf's call
//! that fails, that of the put that fails, each 0 for none, how many bytes that put keeps, and how
//! many of the line on the other sink. A `+` ends the words; after it stand further files of the
//! shelf, as `NAME=FILE`.
//!
//! Tables are read by the library `row_tables`: a run for each row, over a text of it, or with
//! faults of it. The answers come from an independent program, which shares nothing with this
//! repository.
#![tactic(auto)]

mod judged;
mod lines;
mod runs;
mod shelves;
mod shown;
mod tables;

use std::io::{self, BufRead, BufReader};

fn main(rt: HostRuntime) -> io::Result<()> {
    let alloc = rt.alloc();
    for line in BufReader::new(alloc, rt.reader())?.lines(alloc) {
        let line = line?;
        match line.as_str().split_once(' ') {
            Some(("shown", run)) => shown::run(&rt, run)?,
            Some(("failing", run)) => shown::failing(&rt, run)?,
            _ => tables::run(&rt, line.as_str())?,
        }
    }
    Ok(())
}
