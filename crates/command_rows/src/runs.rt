// Runs over three texts, told as texts.
use sb_outside::{MemoryShelf, MemorySink};
use stars_core::stars;
use std::alloc::{AllocError, Global};

/// What the files `r`, `c` and `q` have: a rule file, a catalogue and a query.
#[derive(Clone, Copy, Debug)]
pub struct Texts<'a> {
    pub rules: &'a str,
    pub catalogue: &'a str,
    pub query: &'a str,
}

/// What fails in a run.
#[derive(Clone, Copy, Debug)]
pub struct Faults {
    /// The number of the call of the shelf that fails, from 1; 0: none.
    pub call: u32,
    /// How many bytes the first sink has room for.
    pub room: usize,
    /// How many bytes of its line the second sink keeps where it fails.
    pub kept: Option<usize>,
}

/// More than any run puts out here, in bytes.
pub const AMPLE: usize = 1_000_000;

/// Nothing fails.
pub const NO_FAULTS: Faults = Faults {
    call: 0,
    room: AMPLE,
    kept: None,
};

/// The words of a line, with one space between two; none of an empty line.
pub fn words_of(alloc: Global, line: &str) -> Result<Vec<String>, AllocError> {
    let mut words = Vec::new(alloc);
    if line.is_empty() {
        return Ok(words);
    }
    for word in line.split(' ') {
        words.push(String::from_str(alloc, word)?)?;
    }
    Ok(words)
}

// A file of a shelf.
fn file(alloc: Global, name: &str, text: &str) -> Result<(String, Vec<u8>), AllocError> {
    let name = String::from_str(alloc, name)?;
    let bytes = text.as_bytes().to_vec(alloc)?;
    Ok((name, bytes))
}

// A shelf with the texts, and a second file of the first name, which it doesn't hold.
fn shelf_of(alloc: Global, texts: Texts<'_>, call: u32) -> Result<MemoryShelf, AllocError> {
    let mut files = Vec::new(alloc);
    files.push(file(alloc, "r", texts.rules)?)?;
    files.push(file(alloc, "c", texts.catalogue)?)?;
    files.push(file(alloc, "q", texts.query)?)?;
    files.push(file(alloc, "r", "?")?)?;
    let mut failing = Vec::new(alloc);
    failing.push(call)?;
    Ok(MemoryShelf {
        files,
        failing,
        calls: 0,
        faults: 0,
        taken: 0,
        last: None,
    })
}

/// The second sink, which fails where it keeps some bytes alone.
pub fn line_sink(alloc: Global, kept: Option<usize>) -> Result<MemorySink, AllocError> {
    let mut failing = Vec::new(alloc);
    if let Some(kept) = kept {
        failing.push((1, kept))?;
    }
    MemorySink::new(alloc, AMPLE, failing)
}

/// What the words of a line come to over the texts: the status, the number of calls of the shelf,
/// and what the two sinks took.
pub fn told(
    alloc: Global,
    line: &str,
    texts: Texts<'_>,
    faults: Faults,
) -> Result<String, AllocError> {
    let words = words_of(alloc, line)?;
    let mut shelf = shelf_of(alloc, texts, faults.call)?;
    let mut out = MemorySink::new(alloc, faults.room, Vec::new(alloc))?;
    let mut err = line_sink(alloc, faults.kept)?;
    let status = stars(alloc, words.as_slice(), &mut shelf, &mut out, &mut err);
    let calls = shelf.calls;
    let text = String::from_utf8_lossy(alloc, out.taken())?;
    let line = String::from_utf8_lossy(alloc, err.taken())?;
    format!(in alloc; "{status:?}, calls {calls}\nout: {text}\nerr: {line}")
}
