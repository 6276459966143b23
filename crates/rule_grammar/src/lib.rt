//! Which text spells a rule file: the grammar of the rule language, its canonical text, and how its
//! parts are read.
#![tactic(auto)]

pub mod theorems;
pub mod words;
