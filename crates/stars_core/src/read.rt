// The fetching of one file.
ghost use Rattle.sb_outside.specs.Shelf.{Goes};
ghost use Rattle.stars_core.specs.Shelves.{Fetched};

use crate::lines::too_long_line;
use crate::{Refusal, TextKind};
use sb_outside::{Shelf, ShelfFault};
use std::alloc::Global;
use table_taking::unread_line;

/// The greatest length of a text, in bytes.
pub const LIMIT: usize = 1_048_576;

// The bytes of the file of this name, whose text is to be of this kind.
pub fn fetch<S: Shelf>(
    alloc: Global,
    shelf: &mut S,
    kind: TextKind,
    name: &str,
) -> Result<Vec<u8>, Refusal>
    ensures goes { Goes (S.state shelf.old) (S.state shelf.new) }
    ensures fetched { Fetched (S.state shelf.old) (S.state shelf.new) (kind, name.now) result }
{
    match shelf.bytes(alloc, name, LIMIT) {
        Ok(text) => Ok(text),
        Err(ShelfFault::Failed) => Err(Refusal::Unread(unread_line(alloc, name)?)),
        Err(ShelfFault::TooLong) => Err(Refusal::Refused(kind, too_long_line(alloc, kind)?)),
        Err(ShelfFault::Memory) => Err(Refusal::Memory),
    }
}
