//! Reading the statements of rule files: formulas, selectivities, and STARs with the values,
//! conditions and plans in them.
#![tactic(auto)]

mod alternatives;
mod arguments;
mod condition_nodes;
mod condition_rules;
mod conditions;
mod for_alls;
mod formula_defs;
mod heads;
mod leaves;
mod names;
mod plan_nodes;
mod plans;
mod ranges;
mod scope;
mod select_defs;
mod stars;
mod value_nodes;
mod value_rules;
mod values;

pub use formula_defs::read_formula_def;
pub use select_defs::read_select_def;
pub use stars::read_star;
