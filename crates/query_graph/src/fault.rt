// Why the text of a query is refused.

ghost use Rattle.std.specs.Prelude.{◌≡◌};
ghost use Rattle.query_graph.specs.declared.fault.QueryFault.TheVariants.{Memory};
ghost use Rattle.query_graph.specs.TextFaults.{of_text};

use sb_text::TextFault;
use star_model::faults::LimitKind;
use std::alloc::AllocError;

/// Why a query is refused: the first of these, in this order. Statements and predicates are
/// numbered from 1.
#[derive(Clone, Copy, Debug, PartialEq, Eq)]
pub enum QueryFault {
    /// No token begins at this byte, counted from 0.
    Lexical(u32),
    /// The statement nests brackets too deep, or has too many tokens.
    TooDeep(u32),
    /// The statement is no query, or is a second one. Where there is none at all, it is 1.
    Syntax(u32),
    /// The statement names a table, quantifier, column or site that isn't defined.
    Unknown(u32),
    /// Two quantifiers of the statement have one name.
    Twice(u32),
    Limit(u32, LimitKind),
    /// The predicate compares two types.
    TypeClash(u32),
    /// Want of memory. It may come before any other.
    Memory,
}

impl From<AllocError> for QueryFault {
    ghost from_gives = { λ _ e. e ≡ Memory };

    fn from(_: AllocError) -> Self {
        QueryFault::Memory
    }
}

impl From<TextFault> for QueryFault {
    ghost from_gives = { λ fault e. e ≡ of_text fault };

    fn from(fault: TextFault) -> Self {
        match fault {
            TextFault::Lexical(offset) => QueryFault::Lexical(offset),
            TextFault::TooDeep(statement) => QueryFault::TooDeep(statement),
            TextFault::Memory => QueryFault::Memory,
        }
    }
}
