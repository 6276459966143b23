// Copies of operators.

ghost use Rattle.std.specs.Prelude.{◌≡◌};

use star_model::plans::Op;

/// An equal operator. It takes no memory.
pub fn copied_op(op: &Op) -> Op
    ensures { result ≡ op.now }
{
    match op {
        Op::AccessHeap { over, preds } => Op::AccessHeap {
            over: *over,
            preds: *preds,
        },
        Op::AccessIndex { over, index, preds } => Op::AccessIndex {
            over: *over,
            index: *index,
            preds: *preds,
        },
        Op::Get { over, preds } => Op::Get {
            over: *over,
            preds: *preds,
        },
        Op::Filter { preds } => Op::Filter { preds: *preds },
        Op::Sort { cols } => Op::Sort {
            cols: cols.copied(),
        },
        Op::Store { cols } => Op::Store {
            cols: cols.copied(),
        },
        Op::Ship { site } => Op::Ship { site: *site },
        Op::Probe { cols, preds } => Op::Probe {
            cols: cols.copied(),
            preds: *preds,
        },
        Op::JoinNl { preds } => Op::JoinNl { preds: *preds },
        Op::JoinMerge { merge, preds } => Op::JoinMerge {
            merge: *merge,
            preds: *preds,
        },
        Op::JoinHash { merge, preds } => Op::JoinHash {
            merge: *merge,
            preds: *preds,
        },
        Op::Intersect => Op::Intersect,
    }
}
