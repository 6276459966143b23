// Members of ranges with their numbers.

ghost use Rattle.std.specs.Prelude.{◌≡◌, map};
ghost use Rattle.star_model.specs.Meaning.{numbers_of, member_at};
ghost use Rattle.star_model.specs.WellFormed.{WellFormedQuery};
ghost use Rattle.star_value.specs.RangeNumbers.{numbered_from};

use crate::env::Env;
use crate::ranges::{Over, next_number, over_of};
use star_model::query::Query;
use star_model::rules::Range;
use star_model::values::RuleValue;
use std::marker::Model;

/// The members of a range that are left, each with its number, seen as their list.
#[derive(Drop)]
pub struct NumberedIter<'q> {
    query: &'q Query,
    over: Over,
    // The members with smaller numbers were given.
    next: u8,
}

impl<'q> Model for NumberedIter<'q> {
    ghost use Rattle.std.specs.Prelude.{ℕ, List};
    ghost use Rattle.star_model.specs.declared.values.RuleValue.{RuleValue};
    ghost use Rattle.star_value.specs.RangeNumbers.{numbered_from};

    ghost Value = { List (ℕ × RuleValue) };

    ghost view = { λ it. numbered_from it.query.now it.over it.next };
}

impl<'q> Iterator for NumberedIter<'q> {
    type Item = (u8, RuleValue);

    ghost use Rattle.std.specs.Iterator.{YieldsFirst, item_count};

    ghost next_gives = { YieldsFirst (λ rest. rest) };

    ghost remaining = { item_count (λ rest. rest) };

    /// The next member, which takes no memory.
    fn next(&mut self) -> Option<(u8, RuleValue)> {
        let number = next_number(self.query, &self.over, self.next);
        if number < self.over.end() {
            self.next = number + 1;
            Some((number, self.over.member(number)))
        } else {
            self.next = number;
            None
        }
    }
}

/// The members of the range under these bindings, in its order, each with its number. It takes no
/// memory.
pub fn numbered<'q>(range: &Range, env: &Env, query: &'q Query) -> NumberedIter<'q>
    requires { WellFormedQuery query.now }
    ensures { result ≡ map (λ n. (n, member_at range.now n))
        (numbers_of query.now env.now range.now) }
{
    NumberedIter {
        query,
        over: over_of(range, env, query),
        next: 0,
    }
}
