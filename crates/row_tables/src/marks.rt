// Texts written with marks.
use std::alloc::{AllocError, Global};

// Adds a part's copies, each with its own number. A part without a number has none.
fn push_copies(text: &mut String, alloc: Global, part: &str) -> Result<(), AllocError> {
    let (count, unit) = part.split_once(' ').unwrap_or(("0", part));
    let count = count.parse().unwrap_or(0u32);
    if !unit.contains('@') {
        return text.push_str(unit.repeat(alloc, count as usize)?.as_str());
    }
    for number in 1..=count {
        let own = format!(in alloc; "{number}")?;
        text.push_str(unit.replace(alloc, "@", own.as_str())?.as_str())?;
    }
    Ok(())
}

// The text with the copies of each part between two `` ` ``.
fn with_copies(alloc: Global, text: &str) -> Result<String, AllocError> {
    let mut whole = String::new(alloc);
    let mut is_copied = false;
    for part in text.split('`') {
        if is_copied {
            push_copies(&mut whole, alloc, part)?;
        } else {
            whole.push_str(part)?;
        }
        is_copied = !is_copied;
    }
    Ok(whole)
}

// The character of a hexadecimal number.
fn character(number: &str) -> Option<char> {
    char::from_u32(u32::from_str_radix(number, 16).ok()?)
}

// The text with the characters that are given by their numbers.
fn with_characters(alloc: Global, text: &str) -> Result<String, AllocError> {
    let mut parts = text.split('⟨');
    let mut whole = String::from_str(alloc, parts.next().unwrap_or(""))?;
    for part in parts {
        let (number, rest) = part.split_once('⟩').unwrap_or((part, ""));
        whole.push(character(number).unwrap_or(char::REPLACEMENT_CHARACTER))?;
        whole.push_str(rest)?;
    }
    Ok(whole)
}

/// The text that is written with marks.
pub fn expanded(alloc: Global, text: &str) -> Result<String, AllocError> {
    let lines = text.replace(alloc, "¶", "\n")?;
    let characters = with_characters(alloc, lines.as_str())?;
    with_copies(alloc, characters.as_str())
}

/// The text with the parts that it names, of a table of parts.
pub fn with_parts(alloc: Global, text: &str, parts: &str) -> Result<String, AllocError> {
    let mut whole = String::from_str(alloc, text)?;
    for row in parts.lines() {
        let (name, part) = row.split_once(" => ").unwrap_or((row, ""));
        whole = whole.as_str().replace(alloc, name, part)?;
    }
    Ok(whole)
}
