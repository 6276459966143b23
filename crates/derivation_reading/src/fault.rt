// Why the text of a derivation is refused.

ghost use Rattle.std.specs.Prelude.{◌≡◌};
ghost use Rattle.derivation_reading.specs.declared.fault.DerivFault.TheVariants.{Memory};
ghost use Rattle.derivation_reading.specs.TextFaults.{of_text};

use sb_text::TextFault;
use std::alloc::AllocError;

/// Why the text of a derivation is refused: the first of these, in this order. Statements and nodes
/// are numbered from 1.
#[derive(Clone, Copy, Debug, PartialEq, Eq)]
pub enum DerivFault {
    /// No token begins at this byte, counted from 0.
    Lexical(u32),
    /// The statement nests brackets too deep, or has too many tokens.
    TooDeep(u32),
    /// The statement is no node, or none that may stand there. Where a text ends too early, it is
    /// the one behind the last.
    Syntax(u32),
    /// The node, in preorder, is the first with more than 2,047 ancestors.
    TooTall(u32),
    /// Want of memory. It may come before any other.
    Memory,
}

impl From<AllocError> for DerivFault {
    ghost from_gives = { λ _ e. e ≡ Memory };

    fn from(_: AllocError) -> Self {
        DerivFault::Memory
    }
}

impl From<TextFault> for DerivFault {
    ghost from_gives = { λ fault e. e ≡ of_text fault };

    fn from(fault: TextFault) -> Self {
        match fault {
            TextFault::Lexical(offset) => DerivFault::Lexical(offset),
            TextFault::TooDeep(statement) => DerivFault::TooDeep(statement),
            TextFault::Memory => DerivFault::Memory,
        }
    }
}
