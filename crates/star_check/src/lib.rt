//! Which rule files are accepted, and why the others are refused.
#![tactic(auto)]

mod arity;
mod body_kinds;
mod checked;
mod cycles;
mod faults;
mod first;
mod found;
mod heights;
mod kinds;
mod missing_formulas;
mod names;
mod not_monotone;
mod reach;
mod roots;
pub mod theorems;
mod twice;
mod unknown;
mod weights;
mod wrong_kinds;

pub use checked::{CheckedRules, check_rules};
