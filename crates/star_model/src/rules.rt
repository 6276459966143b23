// Rule files: STARs, after the grammar-like rules of Lohman 1988, and cost formulas.

use crate::formula::Formula;
use crate::lists::{List, Name};
use sqlite_items::Boxed;

/// The operators of plans, Lohman's LOLEPOPs. FILTER and PROBE are operators of their own here.
#[derive(Clone, Copy, Debug, PartialEq, Eq, PartialOrd, Ord, Hash)]
pub enum Flavour {
    AccessHeap,
    AccessIndex,
    Get,
    Filter,
    Sort,
    Store,
    Ship,
    Probe,
    JoinNl,
    JoinMerge,
    JoinHash,
    /// The rows that two accesses of one table share. Only in rule files of version 2.
    Intersect,
}

/// The two costs of an operator's result: of its first production, and of each further one.
#[derive(Clone, Copy, Debug, PartialEq, Eq, PartialOrd, Ord, Hash)]
pub enum Which {
    Cost,
    Rescan,
}

/// The kinds of values of the rule language.
#[derive(Clone, Copy, Debug, PartialEq, Eq)]
pub enum Kind {
    Stream,
    Quants,
    Preds,
    Cols,
    Site,
    Index,
}

/// An expression for a value. The parts stand in the order of the spelling.
#[derive(Drop)]
pub enum ValueExpr {
    /// A parameter or for-all name. `place` is its place among the names that may be used here, the
    /// parameters first and then the for-all names; 255 where it is none of them.
    Variable { name: Name, place: u8 },
    /// `T[order C]`
    WithOrder(Boxed<ValueExpr>, Boxed<ValueExpr>),
    /// `T[site S]`
    WithSite(Boxed<ValueExpr>, Boxed<ValueExpr>),
    /// `T[temp]`
    WithTemp(Boxed<ValueExpr>),
    /// `T[path C]`
    WithPath(Boxed<ValueExpr>, Boxed<ValueExpr>),
    Tables(Boxed<ValueExpr>),
    All,
    /// `none`
    NoPreds,
    Inside(Boxed<ValueExpr>),
    Crossing(Boxed<ValueExpr>),
    Between(Boxed<ValueExpr>, Boxed<ValueExpr>),
    Equalities(Boxed<ValueExpr>),
    Indexable(Boxed<ValueExpr>, Boxed<ValueExpr>, Boxed<ValueExpr>),
    NoCols,
    OrderBy,
    Columns(Boxed<ValueExpr>, Boxed<ValueExpr>),
    Keys(Boxed<ValueExpr>, Boxed<ValueExpr>),
    Home(Boxed<ValueExpr>),
    QuerySite,
    Union(Boxed<ValueExpr>, Boxed<ValueExpr>),
    Minus(Boxed<ValueExpr>, Boxed<ValueExpr>),
    Meet(Boxed<ValueExpr>, Boxed<ValueExpr>),
}

/// What a for-all clause ranges over.
#[derive(Drop)]
pub enum Range {
    /// The indexes on a stream's table.
    Indexes(ValueExpr),
    /// All sites.
    Sites,
    /// Each quantifier of a set, as a set of one.
    Members(ValueExpr),
    /// Each predicate of a set, as a set of one.
    Each(ValueExpr),
}

/// A condition of applicability. It sees values and the query, never a plan.
#[derive(Drop)]
pub enum Condition {
    Empty(ValueExpr),
    Single(ValueExpr),
    Same(ValueExpr, ValueExpr),
    Within(ValueExpr, ValueExpr),
    /// The second list of columns is a prefix of the first.
    Begins(ValueExpr, ValueExpr),
    Not(Boxed<Condition>),
    And(Boxed<Condition>, Boxed<Condition>),
    Or(Boxed<Condition>, Boxed<Condition>),
}

/// The body of an alternative: a reference to a STAR, a call of Glue, or an operator over none, one
/// or two plans.
#[derive(Drop)]
pub enum PlanExpr {
    Reference {
        star: Name,
        args: List<ValueExpr>,
    },
    Glue {
        stream: ValueExpr,
        preds: ValueExpr,
    },
    Leaf {
        flavour: Flavour,
        args: List<ValueExpr>,
    },
    Unary {
        flavour: Flavour,
        args: List<ValueExpr>,
        input: Boxed<PlanExpr>,
    },
    Binary {
        flavour: Flavour,
        args: List<ValueExpr>,
        left: Boxed<PlanExpr>,
        right: Boxed<PlanExpr>,
    },
}

/// A for-all clause: the alternative is repeated for each member of the range.
#[derive(Drop)]
pub struct ForAll {
    pub name: Name,
    pub range: Range,
}

/// One way to make a STAR's plans.
#[derive(Drop)]
pub struct Alternative {
    /// At most 2 in a rule file that was read.
    pub ranges: List<ForAll>,
    /// None where the alternative always applies.
    pub condition: Option<Condition>,
    pub body: PlanExpr,
}

#[derive(Debug, Drop)]
pub struct Param {
    pub name: Name,
    pub kind: Kind,
}

/// A STAR: a named rule with parameters and alternatives.
#[derive(Drop)]
pub struct StarDef {
    /// The number of its statement in the file, from 1.
    pub statement: u32,
    pub name: Name,
    /// 1 to 8 in a rule file that was read.
    pub params: List<Param>,
    /// 1 to 16 in a rule file that was read.
    pub alternatives: List<Alternative>,
}

/// The formula of an operator's cost.
#[derive(Drop)]
pub struct FormulaDef {
    /// The number of its statement in the file, from 1.
    pub statement: u32,
    pub flavour: Flavour,
    pub which: Which,
    pub formula: Formula,
}

/// How a predicate compares, as far as its selectivity goes.
#[derive(Clone, Copy, Debug, PartialEq, Eq)]
pub enum Class {
    /// A column is equal to a constant.
    EqConst,
    /// Two columns are equal.
    EqColumn,
    /// The two sides are different.
    Ne,
    /// One side is less than the other, or not greater.
    Less,
}

/// The selectivity of the predicates of a class: of `den` rows, `num` make such a predicate true.
#[derive(Drop)]
pub struct SelectDef {
    /// The number of its statement in the file, from 2: the first says the version.
    pub statement: u32,
    pub class: Class,
    pub num: Formula,
    pub den: Formula,
}

/// A rule file, in the order of its statements.
#[derive(Drop)]
pub struct RuleFile {
    /// 1 or 2.
    pub version: u8,
    /// None in version 1.
    pub selects: List<SelectDef>,
    pub formulas: List<FormulaDef>,
    /// At most 64 in a rule file that was read.
    pub stars: List<StarDef>,
}
