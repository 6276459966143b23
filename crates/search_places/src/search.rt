// What a search looks at.

use star_check::CheckedRules;
use star_model::lists::Name;
use star_model::plans::Goal;
use star_model::query::Query;
use star_model::rules::Alternative;
use table_set_memo::Memo;

/// What a search for the plans of one goal looks at. It changes nothing of it.
#[derive(Clone, Copy)]
pub struct Search<'a> {
    pub rules: &'a CheckedRules,
    pub query: &'a Query,
    /// The sets of other goals.
    pub memo: &'a Memo,
    pub goal: Goal,
}

/// An alternative of a STAR.
#[derive(Clone, Copy)]
pub struct Part<'a> {
    /// The STAR's name.
    pub star: &'a Name,
    /// Its number among the STAR's alternatives, from 1.
    pub number: u32,
    pub alternative: &'a Alternative,
}
