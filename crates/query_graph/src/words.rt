// What the statement of a query says, with names as they are written.

use star_model::lists::{Bytes, List, Name};
use star_model::query::Cmp;

/// A column of a quantifier, by their names.
#[derive(Debug, Drop)]
pub struct ColumnWords {
    pub quantifier: Name,
    pub column: Name,
}

/// A quantifier: the name of its table, and its own where it is given one.
#[derive(Debug, Drop)]
pub struct ItemWords {
    pub table: Name,
    pub name: Option<Name>,
}

/// A constant. A number may be outside 64 bits with sign.
#[derive(Debug, Drop)]
pub enum ConstantWords {
    Whole(u64),
    /// A number behind a minus sign.
    Negative(u64),
    /// What stands between the quotes, with each doubled quote as one.
    Quoted(Bytes),
}

/// The right side of a comparison.
#[derive(Debug, Drop)]
pub enum SideWords {
    Column(ColumnWords),
    Constant(ConstantWords),
}

#[derive(Debug, Drop)]
pub struct ComparisonWords {
    pub left: ColumnWords,
    pub cmp: Cmp,
    pub right: SideWords,
}

/// What the statement says. Nothing is known of the names but that those of tables, quantifiers and
/// the site aren't reserved.
#[derive(Debug, Drop)]
pub struct QueryWords {
    /// One or more.
    pub select: List<ColumnWords>,
    /// One or more.
    pub items: List<ItemWords>,
    /// Empty where there is no `where`.
    pub comparisons: List<ComparisonWords>,
    /// Empty where there is no `order by`.
    pub order: List<ColumnWords>,
    /// None where there is no `at`.
    pub site: Option<Name>,
}
