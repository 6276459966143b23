// What the texts of rows ask of runs.
use crate::runs::{AMPLE, Faults, NO_FAULTS, Texts, told};
use std::alloc::{AllocError, Global};

// The faults of a text's words: the number of a call, a room and what is kept, each a number or
// else nothing.
fn faults_of(call: &str, room: &str, kept: &str) -> Faults {
    Faults {
        call: call.parse().unwrap_or(0),
        room: room.parse().unwrap_or(AMPLE),
        kept: kept.parse().ok(),
    }
}

/// What the words of a text come to with its faults: `CALL ROOM KEPT WORDS`, with `-` for each
/// fault that isn't there.
pub fn faulty(alloc: Global, text: &str, texts: Texts<'_>) -> Result<String, AllocError> {
    let (call, rest) = text.split_once(' ').unwrap_or((text, ""));
    let (room, rest) = rest.split_once(' ').unwrap_or((rest, ""));
    let (kept, line) = rest.split_once(' ').unwrap_or((rest, ""));
    told(alloc, line, texts, faults_of(call, room, kept))
}

/// What `plan` comes to over the texts.
pub fn plan(alloc: Global, texts: Texts<'_>) -> Result<String, AllocError> {
    told(alloc, "plan r c q", texts, NO_FAULTS)
}

/// What `plan` comes to over the texts after a change of them all: `OLD -> NEW`.
pub fn changed(alloc: Global, text: &str, texts: Texts<'_>) -> Result<String, AllocError> {
    let (old, new) = text.split_once(" -> ").unwrap_or((text, ""));
    let rules = texts.rules.replace(alloc, old, new)?;
    let catalogue = texts.catalogue.replace(alloc, old, new)?;
    let query = texts.query.replace(alloc, old, new)?;
    let texts = Texts {
        rules: rules.as_str(),
        catalogue: catalogue.as_str(),
        query: query.as_str(),
    };
    plan(alloc, texts)
}

// A text with a comment behind it that brings it to a length in bytes.
fn lengthened(alloc: Global, text: &str, len: &str) -> Result<String, AllocError> {
    let Ok(len) = len.parse::<usize>() else {
        return String::from_str(alloc, text);
    };
    let missing = len.saturating_sub(text.len()).saturating_sub(1);
    let comment = "x".repeat(alloc, missing)?;
    format!(in alloc; "{text}#{comment}")
}

/// What `plan` comes to over the texts at the lengths of a text, `RULES CATALOGUE QUERY`, with `-`
/// for each that stays as it is.
pub fn long(alloc: Global, text: &str, texts: Texts<'_>) -> Result<String, AllocError> {
    let (first, rest) = text.split_once(' ').unwrap_or((text, ""));
    let (second, third) = rest.split_once(' ').unwrap_or((rest, ""));
    let rules = lengthened(alloc, texts.rules, first)?;
    let catalogue = lengthened(alloc, texts.catalogue, second)?;
    let query = lengthened(alloc, texts.query, third)?;
    let texts = Texts {
        rules: rules.as_str(),
        catalogue: catalogue.as_str(),
        query: query.as_str(),
    };
    plan(alloc, texts)
}
