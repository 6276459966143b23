// Names of a letter and a number.

ghost use Rattle.std.specs.Prelude.{◌≡◌, ◌∷◌, decimal, IfOk};

use itoa::Buffer;
use std::alloc::{AllocError, Global};

/// A letter and a number in decimal.
pub fn numbered(alloc: Global, letter: u8, number: usize) -> Result<Vec<u8>, AllocError>
    ensures { IfOk result (λ name. name.items ≡ letter ∷ decimal number) }
{
    let mut digits = Buffer::new();
    let mut name = Vec::from_slice(alloc, &[letter])?;
    name.extend_from_slice(digits.format(number).as_bytes())?;
    Ok(name)
}
