// Walks over a set of a query's predicates.

ghost use Rattle.std.specs.Prelude.{◌≡◌};
ghost use Rattle.star_model.specs.Predicates.{preds_in};
ghost use Rattle.star_model.specs.WellFormed.{WellFormedQuery};

use star_model::query::{Pred, Query};
use star_model::sets::PredSet;
use std::marker::Model;

/// The predicates of a set that are left, seen as their list.
#[derive(Drop)]
pub struct PredIter<'q> {
    // The predicates that are left, of which the first has this number.
    preds: &'q [Pred],
    number: u8,
    set: PredSet,
}

impl<'q> Model for PredIter<'q> {
    ghost use Rattle.std.specs.Prelude.{List, ◌≤◌, ◌+◌, length};
    ghost use Rattle.star_model.specs.declared.query.Pred.{Pred};
    ghost use Rattle.star_model.specs.Predicates.{those_in};

    ghost Value = { List Pred };

    ghost view = { λ it. those_in it.set it.number it.preds.now };

    ghost invariant = { λ it. it.number + length it.preds.now ≤ 32 };
}

impl<'q> Iterator for PredIter<'q> {
    type Item = &'q Pred;

    ghost use Rattle.std.specs.Iterator.{YieldsFirstRef, item_count};

    ghost next_gives = { YieldsFirstRef (λ rest. rest) };

    ghost remaining = { item_count (λ rest. rest) };

    /// The next predicate, which takes no memory.
    fn next(&mut self) -> Option<&'q Pred> {
        while let Some((pred, more)) = self.preds.split_first() {
            let number = self.number;
            self.preds = more;
            self.number = number + 1;
            if self.set.has(number) {
                return Some(pred);
            }
        }
        None
    }
}

/// The predicates of the set, in query order. It takes no memory.
#[tactic(auto, using(crate::proofs::NoPredicates::none_in))]
pub fn preds_in(query: &Query, preds: PredSet) -> PredIter<'_>
    requires { WellFormedQuery query.now }
    ensures { result ≡ preds_in query.now preds }
{
    // Many operators apply none, and for these no predicate is looked at.
    let looked_at = if preds == PredSet::empty() {
        &[]
    } else {
        query.preds.as_slice()
    };
    PredIter {
        preds: looked_at,
        number: 0,
        set: preds,
    }
}
