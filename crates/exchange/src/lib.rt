//! Which plans belong to a place, how each is made of those of its parts, and why it is enough to
//! keep the best: laws alone.
#![tactic(auto)]

pub mod theorems;
