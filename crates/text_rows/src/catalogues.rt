// Catalogues in their canonical layout.
use catalogue::{print_catalogue, read_catalogue};
use std::alloc::{AllocError, Global};

// The greatest length of a text in bytes.
const LONGEST: usize = 1_048_576;

/// The text of the catalogue that a text says, or the fault of the text.
pub fn canonical(alloc: Global, text: &str) -> Result<String, AllocError> {
    if text.len() > LONGEST {
        return Err(AllocError);
    }
    match read_catalogue(alloc, text.as_bytes()) {
        Ok(catalogue) => {
            let text = print_catalogue(alloc, &catalogue)?;
            String::from_utf8_lossy(alloc, text.as_slice())
        }
        Err(fault) => format!(in alloc; "{fault:?}"),
    }
}
