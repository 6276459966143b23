// Why a catalogue text is refused.

ghost use Rattle.std.specs.Prelude.{◌≡◌};
ghost use Rattle.catalogue.specs.declared.fault.CatFault.TheVariants.{Memory};
ghost use Rattle.catalogue.specs.Judged.{of_tokens};

use sb_text::TextFault;
use star_model::faults::LimitKind;
use std::alloc::AllocError;

/// Why a catalogue text is refused: the first of these, in this order, over the whole text. A
/// number alone is the first statement that has the fault, from 1.
#[derive(Clone, Copy, Debug, PartialEq, Eq)]
pub enum CatFault {
    /// No token begins at this byte, counted from 0.
    Lexical(u32),
    /// The statement nests brackets too deep, or has too many tokens.
    TooDeep(u32),
    /// It isn't spelled by the grammar.
    Syntax(u32),
    /// It names what no earlier statement defines.
    Unknown(u32),
    /// It defines what is defined already, or has a column twice.
    Twice(u32),
    /// It goes beyond this limit, the first of those that it goes beyond.
    Limit(u32, LimitKind),
    /// Want of memory. It may come before any other.
    Memory,
}

impl From<AllocError> for CatFault {
    ghost from_gives = { λ _ e. e ≡ Memory };

    fn from(_: AllocError) -> Self {
        CatFault::Memory
    }
}

impl From<TextFault> for CatFault {
    ghost from_gives = { λ text fault. fault ≡ of_tokens text };

    fn from(fault: TextFault) -> Self {
        match fault {
            TextFault::Lexical(offset) => CatFault::Lexical(offset),
            TextFault::TooDeep(statement) => CatFault::TooDeep(statement),
            TextFault::Memory => CatFault::Memory,
        }
    }
}
