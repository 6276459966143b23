// A token, by its kind and its place.
ghost use Rattle.std.specs.Prelude.{◌≡◌};
ghost use Rattle.sb_text.specs.declared.token.TextFault.TheVariants.{Memory};

use std::alloc::{AllocError, AllocFailed};

/// What a token is, by its form.
#[derive(Clone, Copy, Debug, PartialEq, Eq)]
pub enum TokenKind {
    /// A letter or `_`, then letters, digits and `_`.
    Word,
    /// 1 to 19 digits. Leading zeros are allowed.
    Number,
    /// Bytes between two quotes `'`, with each quote among them doubled.
    Text,
    /// A bracket, a separator or an operator, of one byte or two.
    Symbol,
}

/// A token: its text is the bytes from `start` up to `end` of the source.
#[derive(Clone, Copy, Debug, PartialEq, Eq)]
pub struct Token {
    pub kind: TokenKind,
    /// The offset of its first byte in the source.
    pub start: u32,
    /// The offset behind its last byte.
    pub end: u32,
    /// The first byte of its text, which tells a `;` and a bracket without the source.
    pub first: u8,
}

/// Why a text has no list of tokens.
#[derive(Clone, Copy, Debug, PartialEq, Eq)]
pub enum TextFault {
    /// No token begins at this offset, and all before it are tokens, white space and comments.
    Lexical(u32),
    /// All bytes are tokens, and this statement, counted from 1, is the first that nests brackets
    /// deeper than 32 or has more than 4,096 tokens before its `;`.
    TooDeep(u32),
    /// Memory ran out.
    Memory,
}

impl From<AllocError> for TextFault {
    ghost from_gives = { λ _ e. e ≡ Memory };

    fn from(_: AllocError) -> Self {
        TextFault::Memory
    }
}

impl<T: Drop> From<AllocFailed<T>> for TextFault {
    ghost from_gives = { λ _ e. e ≡ Memory };

    fn from(_: AllocFailed<T>) -> Self {
        TextFault::Memory
    }
}
