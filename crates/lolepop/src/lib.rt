//! Operators over plans: the vector of a result, plans whose parts are shared, and derivations
//! beside them.
#![tactic(auto)]

mod applicability;
mod applying;
mod arguments;
mod below;
mod best;
mod chain_words;
mod chains;
mod conditions;
mod copies;
mod entry;
mod inputs;
mod own_columns;
mod plan_node;
mod predicates;
mod pricing;
mod results;
mod steps;
pub mod theorems;
mod trace;
mod variables;
mod width_names;

pub use applying::apply;
pub use below::{Below, nodes_below};
pub use best::Best;
pub use chain_words::glue_operator;
pub use chains::is_chain;
pub use conditions::none_reaches_outside;
pub use copies::copied_op;
pub use entry::Entry;
pub use plan_node::PlanNode;
pub use predicates::{PredIter, preds_in};
pub use query_facts::weigh;
pub use steps::step;
pub use trace::Trace;
