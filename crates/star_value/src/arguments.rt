// What stands at the places of a body: streams and predicates of Glue, and operators with the
// values of their arguments. A value of another kind than its place asks is read as the empty one,
// as in `value`.

ghost use Rattle.std.specs.Prelude.{◌≡◌};
ghost use Rattle.star_model.specs.Expected.{at_index, operator_of, values_of};
ghost use Rattle.star_model.specs.Meaning.{meaning, as_stream, as_preds};
ghost use Rattle.star_model.specs.WellFormed.{WellFormedQuery};

use crate::env::Env;
use crate::meaning::value;
use crate::readings::{cols_of, index_of, preds_of, site_of, stream_of};
use star_model::plans::Op;
use star_model::query::Query;
use star_model::rules::{Flavour, ValueExpr};
use star_model::sets::{PredSet, QuantSet};
use star_model::values::{RuleValue, StreamValue};

/// The stream that the expression stands for under these bindings. It takes no memory.
pub fn stream(expr: &ValueExpr, env: &Env, query: &Query) -> StreamValue
    requires { WellFormedQuery query.now }
    ensures { result ≡ as_stream (meaning query.now env.now expr.now) }
{
    stream_of(value(expr, env, query))
}

/// The set of predicates that the expression stands for under these bindings. It takes no memory.
pub fn preds(expr: &ValueExpr, env: &Env, query: &Query) -> PredSet
    requires { WellFormedQuery query.now }
    ensures { result ≡ as_preds (meaning query.now env.now expr.now) }
{
    preds_of(&value(expr, env, query))
}

// The value of the argument at this place, from 0, if there is one.
#[tactic(auto, using(crate::proofs::Mapped::argument_rules))]
fn argument(args: &[ValueExpr], n: usize, env: &Env, query: &Query) -> RuleValue
    requires { WellFormedQuery query.now }
    ensures { result ≡ at_index (values_of query.now env.now args.now) n }
{
    match args.get(n) {
        None => RuleValue::Quants(QuantSet::empty()),
        Some(arg) => value(arg, env, query),
    }
}

/// The operator of this flavour, with what these arguments stand for under the bindings. It takes
/// no memory.
pub fn operator(flavour: Flavour, args: &[ValueExpr], env: &Env, query: &Query) -> Op
    requires { WellFormedQuery query.now }
    ensures { result ≡ operator_of flavour (values_of query.now env.now args.now) }
{
    let first = argument(args, 0, env, query);
    match flavour {
        Flavour::AccessHeap => Op::AccessHeap {
            over: stream_of(first).tables,
            preds: preds_of(&argument(args, 1, env, query)),
        },
        Flavour::AccessIndex => Op::AccessIndex {
            over: stream_of(first).tables,
            index: index_of(&argument(args, 1, env, query)),
            preds: preds_of(&argument(args, 2, env, query)),
        },
        Flavour::Get => Op::Get {
            over: stream_of(first).tables,
            preds: preds_of(&argument(args, 1, env, query)),
        },
        Flavour::Filter => Op::Filter {
            preds: preds_of(&first),
        },
        Flavour::Sort => Op::Sort {
            cols: cols_of(first),
        },
        Flavour::Store => Op::Store {
            cols: cols_of(first),
        },
        Flavour::Ship => Op::Ship {
            site: site_of(&first),
        },
        Flavour::Probe => Op::Probe {
            cols: cols_of(first),
            preds: preds_of(&argument(args, 1, env, query)),
        },
        Flavour::JoinNl => Op::JoinNl {
            preds: preds_of(&first),
        },
        Flavour::JoinMerge => Op::JoinMerge {
            merge: preds_of(&first),
            preds: preds_of(&argument(args, 1, env, query)),
        },
        Flavour::JoinHash => Op::JoinHash {
            merge: preds_of(&first),
            preds: preds_of(&argument(args, 1, env, query)),
        },
        Flavour::Intersect => Op::Intersect,
    }
}
