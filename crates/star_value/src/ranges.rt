// Ranges of for-all clauses.

ghost use Rattle.std.specs.Prelude.{◌≡◌, ◌<◌, map};
ghost use Rattle.star_model.specs.Meaning.{members_of, numbers_of, member_at as member_of};
ghost use Rattle.star_model.specs.WellFormed.{WellFormedQuery};
ghost use Rattle.star_value.specs.RangeNumbers.{is_on_table_of, passes, end_of, member_at, members_from, numbered_from, NumberFrom};

use crate::env::Env;
use crate::meaning::value;
use crate::readings::{preds_of, quants_of};
use crate::streams::tables_of;
use query_facts::{is_index_of, only_member};
use star_model::columns::Site;
use star_model::query::Query;
use star_model::rules::Range;
use star_model::sets::{PredSet, QuantSet};
use star_model::values::RuleValue;
use std::marker::Model;

// What a range goes over, with what its parts stand for.
#[derive(Drop)]
pub(crate) enum Over {
    // The indexes on the table of a quantifier, if there is one, out of so many indexes.
    Indexes { quant: Option<u8>, count: u8 },
    // So many sites.
    Sites { count: u8 },
    Members(QuantSet),
    Each(PredSet),
}

impl Over {
    // The number before which all members' numbers are.
    pub(crate) fn end(&self) -> u8
        ensures { result ≡ end_of self.now }
    {
        match self {
            Over::Indexes { quant: _, count } => *count,
            Over::Sites { count } => *count,
            Over::Members(_) => 32,
            Over::Each(_) => 32,
        }
    }

    pub(crate) fn passes(&self, query: &Query, number: u8) -> bool
        ensures { result ≡ passes query.now self.now number }
    {
        match self {
            Over::Indexes { quant, count: _ } => is_on_table_of(query, *quant, number),
            Over::Sites { count: _ } => true,
            Over::Members(quants) => quants.has(number),
            Over::Each(preds) => preds.has(number),
        }
    }

    pub(crate) fn member(&self, number: u8) -> RuleValue
        requires { number < end_of self.now }
        ensures { result ≡ member_at self.now number }
    {
        match self {
            Over::Indexes { quant: _, count: _ } => RuleValue::Index(number),
            Over::Sites { count: _ } => RuleValue::Site(Site(number)),
            Over::Members(_) => RuleValue::Quants(QuantSet::single(number)),
            Over::Each(_) => RuleValue::Preds(PredSet::single(number)),
        }
    }
}

// Whether the index at this position is on the quantifier's table.
fn is_on_table_of(query: &Query, quant: Option<u8>, index: u8) -> bool
    ensures { result ≡ is_on_table_of query.now quant index }
{
    let Some(quant) = quant else {
        return false;
    };
    query
        .catalogue
        .indexes
        .as_slice()
        .get(index as usize)
        .is_some_and(|found| is_index_of(query, quant, found))
}

// The first number from this one on that is a member's, or the end where there is none.
#[tactic(auto, using(crate::proofs::Passing::passing_rules))]
pub(crate) fn next_number(query: &Query, over: &Over, from: u8) -> u8
    ensures { NumberFrom (passes query.now over.now) from (end_of over.now) result }
{
    for number in from..over.end() {
        if over.passes(query, number) {
            return number;
        }
    }
    over.end()
}

/// The members of a range that are left, seen as their list.
#[derive(Drop)]
pub struct RangeIter<'q> {
    query: &'q Query,
    over: Over,
    // The members with smaller numbers were given.
    next: u8,
}

impl<'q> Model for RangeIter<'q> {
    ghost use Rattle.std.specs.Prelude.{List};
    ghost use Rattle.star_model.specs.declared.values.RuleValue.{RuleValue};
    ghost use Rattle.star_value.specs.RangeNumbers.{members_from};

    ghost Value = { List RuleValue };

    ghost view = { λ it. members_from it.query.now it.over it.next };
}

impl<'q> Iterator for RangeIter<'q> {
    type Item = RuleValue;

    ghost use Rattle.std.specs.Iterator.{YieldsFirst, item_count};

    ghost next_gives = { YieldsFirst (λ rest. rest) };

    ghost remaining = { item_count (λ rest. rest) };

    /// The next member, which takes no memory.
    fn next(&mut self) -> Option<RuleValue> {
        let number = next_number(self.query, &self.over, self.next);
        if number < self.over.end() {
            self.next = number + 1;
            Some(self.over.member(number))
        } else {
            self.next = number;
            None
        }
    }
}

#[tactic(auto, using(crate::proofs::RangeLaws::over_rules))]
pub(crate) fn over_of(range: &Range, env: &Env, query: &Query) -> Over
    requires { WellFormedQuery query.now }
    ensures members { members_from query.now result 0 ≡ members_of query.now env.now range.now }
    ensures numbered { numbered_from query.now result 0
        ≡ map (λ n. (n, member_of range.now n)) (numbers_of query.now env.now range.now) }
{
    match range {
        Range::Indexes(t) => Over::Indexes {
            quant: only_member(tables_of(t, env)),
            count: query.catalogue.indexes.len() as u8,
        },
        Range::Sites => Over::Sites {
            count: query.catalogue.sites.len() as u8,
        },
        Range::Members(s) => Over::Members(quants_of(&value(s, env, query))),
        Range::Each(p) => Over::Each(preds_of(&value(p, env, query))),
    }
}

/// The members of the range under these bindings, in its order. It takes no memory.
pub fn range<'q>(range: &Range, env: &Env, query: &'q Query) -> RangeIter<'q>
    requires { WellFormedQuery query.now }
    ensures { result ≡ members_of query.now env.now range.now }
{
    RangeIter {
        query,
        over: over_of(range, env, query),
        next: 0,
    }
}
