// Requirements, properties, operators, plans, goals and the chains of Glue.

ghost use Rattle.std.specs.Prelude.{◌≡◌, ◌<◌, ◌≤◌, [], ◌∷◌, ◌++◌, length, IsOk, ◌↔◌, OnOk, OnErr, IfErr};

use crate::columns::{ColList, ColSet, Site};
use crate::num::Num;
use crate::sets::{PredSet, QuantSet};
use arrayvec::ArrayVec;
use sqlite_items::Boxed;
use std::marker::Model;

/// What is required of a stream's plans. An empty order or path, no site, and no temporary require
/// nothing.
#[derive(Drop)]
pub struct Require {
    pub order: ColList,
    pub site: Option<Site>,
    pub temp: bool,
    pub path: ColList,
}

/// The properties of a plan, after those of Lohman 1988.
#[derive(Drop)]
pub struct Props {
    /// The quantifiers whose rows are joined.
    pub tables: QuantSet,
    /// The columns that the rows have.
    pub cols: ColSet,
    /// The predicates that were applied.
    pub preds: PredSet,
    /// The columns by which the rows ascend.
    pub order: ColList,
    pub site: Site,
    /// Whether the rows lie in a temporary.
    pub temp: bool,
    /// The columns by which a temporary can be probed.
    pub path: ColList,
    /// Estimated rows.
    pub card: Num,
    /// Cost units of the first production.
    pub cost: Num,
    /// Cost units of each further production.
    pub rescan: Num,
}

/// An operator with its arguments.
#[derive(Drop)]
pub enum Op {
    AccessHeap {
        over: QuantSet,
        preds: PredSet,
    },
    AccessIndex {
        over: QuantSet,
        index: u8,
        preds: PredSet,
    },
    Get {
        over: QuantSet,
        preds: PredSet,
    },
    Filter {
        preds: PredSet,
    },
    Sort {
        cols: ColList,
    },
    Store {
        cols: ColList,
    },
    Ship {
        site: Site,
    },
    Probe {
        cols: ColList,
        preds: PredSet,
    },
    JoinNl {
        preds: PredSet,
    },
    JoinMerge {
        merge: PredSet,
        preds: PredSet,
    },
    JoinHash {
        merge: PredSet,
        preds: PredSet,
    },
    Intersect,
}

/// A tree of operators, without the rules that it comes from.
#[derive(Drop)]
pub enum Plan {
    Leaf {
        op: Op,
    },
    Unary {
        op: Op,
        input: Boxed<Plan>,
    },
    Binary {
        op: Op,
        left: Boxed<Plan>,
        right: Boxed<Plan>,
    },
}

/// Quantifiers whose plans are wanted, with the predicates on others that they are to apply beside
/// their own.
#[derive(Clone, Copy, Debug, PartialEq, Eq, PartialOrd, Ord, Hash)]
pub struct Goal {
    pub tables: QuantSet,
    pub pushed: PredSet,
}

/// An operator of Glue, the enforcer of required properties.
#[derive(Clone, Copy, Debug, Default, PartialEq, Eq)]
pub enum GlueOp {
    #[default]
    Sort,
    Ship,
    Store,
}

/// The operators that Glue applies, in the order of application: at most 3.
#[derive(Drop)]
pub struct Chain {
    ops: ArrayVec<GlueOp, 3>,
}

impl Model for Chain {
    ghost use Rattle.std.specs.Prelude.{List};
    ghost use Rattle.star_model.specs.declared.plans.GlueOp.{GlueOp};

    ghost Value = { List GlueOp };

    ghost view = { λ a. a.ops.items };
}

impl Chain {
    pub fn new() -> Chain
        ensures { result ≡ [] }
    {
        Chain {
            ops: ArrayVec::new(),
        }
    }

    pub fn len(&self) -> usize
        ensures { result ≡ length self.now }
    {
        self.ops.len()
    }

    pub fn as_slice(&self) -> &[GlueOp]
        ensures value { result.now ≡ self.now }
        ensures room { length result.now ≤ 3 }
    {
        self.ops.as_slice()
    }

    /// Adds the operator at the end, or gives it back where there are 3.
    pub fn try_push(&mut self, item: GlueOp) -> Result<(), GlueOp>
        ensures variant { IsOk result ↔ (length self.old < 3) }
        ensures ok { OnOk result (self.new ≡ self.old ++ item ∷ []) }
        ensures err { OnErr result (self.new ≡ self.old) }
        ensures given_back { IfErr result (λ o. o ≡ item) }
    {
        if self.ops.len() < 3 {
            self.ops.push(item);
            Ok(())
        } else {
            Err(item)
        }
    }

    /// An equal chain. It takes no memory.
    pub fn copied(&self) -> Chain
        ensures { result ≡ self.now }
    {
        copy_of(self.as_slice())
    }
}

fn copy_of(ops: &[GlueOp]) -> Chain
    requires { length ops.now ≤ 3 }
    ensures { result ≡ ops.now }
{
    let mut copy = Chain::new();
    for (i, op) in ops.iter().enumerate() {
        let pushed = copy.try_push(*op);
        prove!(pushed.is_ok());
    }
    copy
}
