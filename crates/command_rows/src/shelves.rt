// Shelves of files of the folder.
use sb_outside::MemoryShelf;
use std::alloc::{AllocError, Global};
use std::fs;
use std::rt::Files;

/// The bytes of a file with all that follows its first line so many times.
fn repeated(alloc: Global, bytes: &[u8], count: usize) -> Result<Vec<u8>, AllocError> {
    let header = bytes.iter().take_while(|byte| **byte != b'\n').count();
    let (first, rest) = bytes
        .split_at_checked(header.saturating_add(1))
        .unwrap_or((bytes, &[]));
    let mut all = first.to_vec(alloc)?;
    for _ in 0..count {
        all.extend_from_slice(rest)?;
    }
    Ok(all)
}

// The file of a word: `NAME`, or `NAME=FILE`, which is on the shelf under a name of its own, or
// `NAME=FILE*COUNT`, where what follows its first line stands so many times.
fn put_file<R: Files + AllocGlobal>(
    rt: &R,
    word: &str,
    files: &mut Vec<(String, Vec<u8>)>,
) -> Result<(), AllocError> {
    let alloc = rt.alloc();
    let (name, source) = word.split_once('=').unwrap_or((word, word));
    let (source, count) = source.split_once('*').unwrap_or((source, "1"));
    if let Ok(bytes) = fs::read(rt, source) {
        let bytes = repeated(alloc, bytes.as_slice(), count.parse().unwrap_or(1))?;
        files.push((String::from_str(alloc, name)?, bytes))?;
    }
    Ok(())
}

/// A shelf with those of the files of the words that can be read. One of its calls fails, by its
/// number, or none where that is 0.
pub fn shelf_of<R: Files + AllocGlobal>(
    rt: &R,
    words: &[String],
    call: u32,
) -> Result<MemoryShelf, AllocError> {
    let alloc = rt.alloc();
    let mut files = Vec::new(alloc);
    for word in words {
        put_file(rt, word.as_str(), &mut files)?;
    }
    let mut failing = Vec::new(alloc);
    failing.push(call)?;
    Ok(MemoryShelf {
        files,
        failing,
        calls: 0,
        faults: 0,
        taken: 0,
        last: None,
    })
}
