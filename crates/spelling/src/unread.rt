// Why a part of a statement isn't read.
ghost use Rattle.std.specs.Prelude.{◌≡◌};
ghost use Rattle.spelling.specs.declared.unread.Unread.TheVariants.{Memory};

use std::alloc::AllocError;

/// Why a part of a statement isn't read.
#[derive(Clone, Copy, Debug)]
pub enum Unread {
    /// The lexemes spell no such part.
    Strange,
    /// Memory ran out.
    Memory,
}

impl From<AllocError> for Unread {
    ghost from_gives = { λ _ e. e ≡ Memory };

    fn from(_: AllocError) -> Self {
        Unread::Memory
    }
}
