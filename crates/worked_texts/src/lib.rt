//! The grammars of rule files, catalogues, queries and derivations on whole texts: each spells the
//! tree that it should, computed by the checker.
#![tactic(auto)]

mod texts;
