// Why a rule file is refused. Statements and nodes are numbered from 1.

ghost use Rattle.std.specs.Prelude.{◌≡◌};
ghost use Rattle.star_model.specs.declared.faults.RuleFault.TheVariants.{Memory};

use crate::num::Num;
use crate::rules::{Flavour, Which};
use std::alloc::AllocError;

/// The STARs that each rule file has: those from which goals are derived.
#[derive(Clone, Copy, Debug, PartialEq, Eq)]
pub enum Root {
    AccessRoot,
    JoinRoot,
}

/// What a limit is on, in the order in which limits are tested within a statement.
#[derive(Clone, Copy, Debug, PartialEq, Eq)]
pub enum LimitKind {
    /// A number of a formula or catalogue over 10^18, or a constant of a query outside 64 bits.
    Number,
    /// A name over 64 bytes.
    Name,
    /// A file name that is empty, over 255 bytes or not UTF-8.
    File,
    Params,
    Alternatives,
    ForAlls,
    Stars,
    Depth,
    Formula,
    Sites,
    Tables,
    Columns,
    Indexes,
    IndexColumns,
    Quantifiers,
    Predicates,
    Select,
    OrderBy,
}

/// Why a rule file is refused: the first of these, in this order, over the whole file. A number
/// alone is the first statement that has the fault.
#[derive(Clone, Copy, Debug, PartialEq, Eq)]
pub enum RuleFault {
    /// No token begins at this byte, counted from 0.
    Lexical(u32),
    /// The statement nests brackets too deep, or has too many tokens.
    TooDeep(u32),
    Syntax(u32),
    Limit(u32, LimitKind),
    /// It uses a STAR or a name that isn't defined.
    Unknown(u32),
    /// It defines what is defined already.
    Twice(u32),
    /// A reference has a wrong count of arguments, or a root a wrong count of parameters.
    Arity(u32),
    /// A value has another kind than its place asks, or a root's parameters have other kinds.
    Kind(u32),
    /// The STAR reaches itself by references.
    Cycle(u32),
    /// The STAR is the root of accesses or reached from it, and calls Glue.
    GlueInAccess(u32),
    NoRoot(Root),
    /// An operator that is used lacks one of its two formulas.
    NoFormula(Flavour),
    /// The formula fails the monotone check, first at this node in preorder.
    NotMonotone(Flavour, Which, u32),
    /// The statement, and the height of its STAR, which is over 16.
    TooTall(u32, u32),
    /// The statement, and the weight of its STAR, which is over 4096.
    TooWide(u32, Num),
    /// Want of memory. It may come before any other.
    Memory,
}

impl From<AllocError> for RuleFault {
    ghost from_gives = { λ _ e. e ≡ Memory };

    fn from(_: AllocError) -> Self {
        RuleFault::Memory
    }
}
