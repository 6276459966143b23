// The types of the optimizer, its cut arithmetic, and the definitions of planning.
#![tactic(auto)]

pub mod catalogue;
pub mod columns;
pub mod copies;
pub mod costs;
pub mod derivations;
pub mod faults;
pub mod flavours;
pub mod formula;
pub mod lists;
pub mod num;
pub mod plans;
pub mod query;
pub mod rules;
pub mod selects;
pub mod sets;
pub mod theorems;
pub mod values;
