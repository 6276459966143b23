// Conjunctive queries.

use crate::catalogue::{Catalogue, Value};
use crate::columns::{Col, ColList, Site};
use crate::lists::{List, Name};
use crate::num::Num;

/// A quantifier: a table of the query under a name. One table may have several.
#[derive(Debug, Drop)]
pub struct QuantDef {
    pub name: Name,
    /// The position of its table in the catalogue.
    pub table: u8,
}

/// How a predicate compares its two sides.
#[derive(Clone, Copy, Debug, PartialEq, Eq)]
pub enum Cmp {
    Eq,
    Ne,
    Lt,
    Le,
    Gt,
    Ge,
}

/// The right side of a predicate.
#[derive(Debug, Drop)]
pub enum Operand {
    Column(Col),
    Constant(Value),
}

/// A comparison of a column with a column or a constant of its type.
#[derive(Debug, Drop)]
pub struct Pred {
    pub left: Col,
    pub cmp: Cmp,
    pub right: Operand,
    /// Its selectivity: of `den` rows, `num` make it true. A `den` of 0 counts as 1.
    pub num: Num,
    pub den: Num,
}

/// A query over a catalogue: the rows of its quantifiers that make every predicate true.
#[derive(Drop)]
pub struct Query {
    /// A copy of the one that the query was read against.
    pub catalogue: Catalogue,
    /// 1 to 12 in an accepted query.
    pub quants: List<QuantDef>,
    /// 1 to 64 in an accepted query.
    pub select: List<Col>,
    /// At most 16 in an accepted query.
    pub preds: List<Pred>,
    /// Ascending; empty where the query names no order.
    pub order: ColList,
    /// Where the rows are wanted; none where the query names no site.
    pub site: Option<Site>,
}
