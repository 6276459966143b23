// The tokens of texts.
use sb_text::{Token, tokens};
use std::alloc::{AllocError, Global};

// The greatest length of a text in bytes.
const LONGEST: usize = 1_048_576;

// The kinds and the texts of tokens.
fn listed(alloc: Global, text: &str, tokens: &[Token]) -> Result<String, AllocError> {
    let mut told = String::new(alloc);
    for token in tokens {
        let kind = token.kind;
        let own = text
            .get(token.start as usize..token.end as usize)
            .unwrap_or("no text");
        let line = format!(in alloc; "{kind:?} {own}\n")?;
        told.push_str(line.as_str())?;
    }
    Ok(told)
}

/// The tokens of a text, or its fault.
pub fn told(alloc: Global, text: &str) -> Result<String, AllocError> {
    if text.len() > LONGEST {
        return Err(AllocError);
    }
    match tokens(alloc, text.as_bytes()) {
        Ok(list) => listed(alloc, text, list.as_slice()),
        Err(fault) => format!(in alloc; "{fault:?}"),
    }
}
