//! The command line program: words, files and streams of the system, given to `stars`.
#![tactic(auto)]

mod file_shelf;
mod stream;

use file_shelf::FileShelf;
use stars_core::stars;
use std::env::{self, Env};
use std::io;
use std::process::ExitCode;
use stream::Stream;

/// What the program ends with where it can't get its words. No status has this number.
const NO_WORDS: u8 = 14;

// The words after the program's name.
fn words<R: Env + AllocGlobal>(rt: &R) -> io::Result<Vec<String>> {
    let words = env::args(rt)?.skip(1).collect(rt.alloc())?;
    Ok(words)
}

fn main(rt: HostRuntime) -> ExitCode {
    let Ok(words) = words(&rt) else {
        return ExitCode::from(NO_WORDS);
    };
    let mut shelf = FileShelf::new(&rt);
    let mut out = Stream::new(rt.stdout());
    let mut err = Stream::new(rt.stderr());
    let status = stars(rt.alloc(), words.as_slice(), &mut shelf, &mut out, &mut err);
    ExitCode::from(status.code())
}
