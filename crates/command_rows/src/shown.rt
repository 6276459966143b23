// Runs over the files of the folder whose output is shown.
use crate::runs::{AMPLE, line_sink, words_of};
use crate::shelves::shelf_of;
use sb_outside::MemorySink;
use stars_core::stars;
use std::alloc::{AllocError, Global};
use std::io;
use std::rt::Files;

/// What fails in a run whose output is shown.
#[derive(Clone, Copy, Debug)]
struct Faulty {
    /// The number of the call of the shelf, from 1; 0: none.
    call: u32,
    /// The number of the put of the first sink, from 1; 0: none.
    put: u32,
    /// How many bytes that put keeps.
    kept: usize,
    /// How many bytes of its line the second sink keeps where it fails.
    line: Option<usize>,
}

const NOTHING: Faulty = Faulty {
    call: 0,
    put: 0,
    kept: 0,
    line: None,
};

// The first lines of a text, so many.
fn first_lines(alloc: Global, text: &str, count: usize) -> Result<String, AllocError> {
    let mut first = String::new(alloc);
    for line in text.lines().take(count) {
        first.push_str(line)?;
        first.push_str("\n")?;
    }
    Ok(first)
}

// The part of a text that is shown: all of it, its first lines, or the rows of the query alone.
fn shown_part(alloc: Global, text: &str, part: &str) -> Result<String, AllocError> {
    if part != "rows" {
        return first_lines(alloc, text, part.parse().unwrap_or(usize::MAX));
    }
    match text.split_once("# rows ") {
        Some((_, rows)) => format!(in alloc; "# rows {rows}"),
        None => String::from_str(alloc, text),
    }
}

// The words of a run and the further files of its shelf: those behind a word that is `+`.
fn parted<'a>(words: &'a [String]) -> (&'a [String], &'a [String]) {
    let count = words.iter().take_while(|word| word.as_str() != "+").count();
    words.split_at_checked(count).unwrap_or((words, &[]))
}

// Runs `stars` on the words of a line, and prints the status, the number of calls of the shelf,
// and what both sinks took.
fn show<R: Files + Print + AllocGlobal>(
    rt: &R,
    line: &str,
    part: &str,
    failing: Faulty,
) -> io::Result<()> {
    let alloc = rt.alloc();
    let all = words_of(alloc, line)?;
    let (words, _) = parted(all.as_slice());
    let mut shelf = shelf_of(rt, all.as_slice().get(1..).unwrap_or(&[]), failing.call)?;
    let mut puts = Vec::new(alloc);
    puts.push((failing.put, failing.kept))?;
    let mut out = MemorySink::new(alloc, AMPLE, puts)?;
    let mut err = line_sink(alloc, failing.line)?;
    let status = stars(alloc, words, &mut shelf, &mut out, &mut err);
    let text = String::from_utf8_lossy(alloc, out.taken())?;
    let shown = shown_part(alloc, text.as_str(), part)?;
    let told = String::from_utf8_lossy(alloc, err.taken())?;
    let calls = shelf.calls;
    println!(rt; "> {line}\n{status:?}, calls {calls}\n{shown}{told}")
}

/// A run of which a part is shown: `PART WORDS`.
pub fn run<R: Files + Print + AllocGlobal>(rt: &R, line: &str) -> io::Result<()> {
    let (part, words) = line.split_once(' ').unwrap_or((line, ""));
    show(rt, words, part, NOTHING)
}

/// A run in which calls or puts fail: `CALL PUT KEPT LINE WORDS`, with 0 for a call or a put that
/// doesn't fail, and `-` for a line that is taken whole.
pub fn failing<R: Files + Print + AllocGlobal>(rt: &R, line: &str) -> io::Result<()> {
    let (call, rest) = line.split_once(' ').unwrap_or((line, ""));
    let (put, rest) = rest.split_once(' ').unwrap_or((rest, ""));
    let (kept, rest) = rest.split_once(' ').unwrap_or((rest, ""));
    let (room, words) = rest.split_once(' ').unwrap_or((rest, ""));
    let failing = Faulty {
        call: call.parse().unwrap_or(0),
        put: put.parse().unwrap_or(0),
        kept: kept.parse().unwrap_or(0),
        line: room.parse().ok(),
    };
    show(rt, words, "all", failing)
}
