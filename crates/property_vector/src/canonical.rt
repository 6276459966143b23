// The canonical form of an order.

ghost use Rattle.std.specs.Prelude.{◌≡◌, ◌<◌, ◌≤◌, [], ◌∷◌, ◌++◌, length, fold, map, if◌then◌else◌};
ghost use Rattle.std.specs.List.{cons_option, list_any};
ghost use Rattle.star_model.specs.Limits.{most_in_order};
ghost use Rattle.star_model.specs.Vectors.{same_column};
ghost use Rattle.star_model.specs.Sets.{has};
ghost use Rattle.star_model.specs.WellFormed.{WellFormedQuery};
ghost use Rattle.star_model.specs.Canon.{ColPair, equality_within, equalities_within, is_lower, lower, merged, after_merges, with_merge, merges, least_equal, distinct, canon};

use arrayvec::ArrayVec;
use star_model::columns::{Col, ColList};
use star_model::query::{Cmp, Operand, Pred, Query};
use star_model::sets::{PredSet, QuantSet};
use std::marker::Model;

// At most 16 pairs of columns.
#[derive(Drop)]
struct ColPairs {
    pairs: ArrayVec<(Col, Col), 16>,
}

impl Model for ColPairs {
    ghost use Rattle.std.specs.Prelude.{List};
    ghost use Rattle.star_model.specs.Canon.{ColPair};

    ghost Value = { List ColPair };

    ghost view = { λ a. a.pairs.items };
}

impl ColPairs {
    fn new() -> ColPairs
        ensures { result ≡ [] }
    {
        ColPairs {
            pairs: ArrayVec::new(),
        }
    }

    fn as_slice(&self) -> &[(Col, Col)]
        ensures { result.now ≡ self.now }
    {
        self.pairs.as_slice()
    }

    fn push(&mut self, pair: (Col, Col))
        requires { length self.old < most_in_order }
        ensures { self.new ≡ self.old ++ pair ∷ [] }
    {
        self.pairs.push(pair);
    }
}

// The two columns of an equality of columns of the set's quantifiers.
fn equality_within(tables: QuantSet, pred: &Pred) -> Option<(Col, Col)>
    ensures { result ≡ equality_within tables pred.now }
{
    match &pred.right {
        Operand::Column(right) => {
            if pred.cmp == Cmp::Eq && tables.has(pred.left.quant.0) && tables.has(right.quant.0) {
                Some((pred.left, *right))
            } else {
                None
            }
        }
        Operand::Constant(_) => None,
    }
}

fn add_equality(found: &mut ColPairs, tables: QuantSet, pred: &Pred, is_member: bool)
    requires { length found.old < most_in_order }
    ensures { found.new ≡ found.old ++ (if is_member then cons_option
        (equality_within tables pred.now) [] else []) }
{
    if is_member {
        if let Some(pair) = equality_within(tables, pred) {
            found.push(pair);
        }
    }
}

// The equalities among the predicates, of columns of the set's quantifiers.
#[tactic(auto, using(crate::proofs::CanonWalks::equalities_more, crate::proofs::CanonWalks::pair_longer))]
fn equalities_within(query: &Query, preds: PredSet, tables: QuantSet) -> ColPairs
    requires { WellFormedQuery query.now }
    ensures equalities { result ≡ equalities_within query.now preds tables }
    ensures few { length result ≤ most_in_order }
{
    let mut found = ColPairs::new();
    for (n, pred) in query.preds.as_slice().iter().enumerate() {
        add_equality(&mut found, tables, pred, preds.has(n as u8));
    }
    found
}

fn is_lower(a: Col, b: Col) -> bool
    ensures { result ≡ is_lower a b }
{
    a.quant.0 < b.quant.0 || (a.quant.0 == b.quant.0 && a.column < b.column)
}

fn lower(a: Col, b: Col) -> Col
    ensures { result ≡ lower a b }
{
    if is_lower(b, a) { b } else { a }
}

fn merged(pair: (Col, Col), column: Col) -> Col
    ensures { result ≡ merged pair column }
{
    if column == pair.0 || column == pair.1 {
        lower(pair.0, pair.1)
    } else {
        column
    }
}

fn after_merges(made: &[(Col, Col)], column: Col) -> Col
    ensures { result ≡ after_merges made.now column }
{
    let mut least = column;
    for pair in made {
        least = merged(*pair, least);
    }
    least
}

fn merges(pairs: &[(Col, Col)]) -> ColPairs
    requires { length pairs.now ≤ most_in_order }
    ensures { result ≡ merges pairs.now }
{
    let mut made = ColPairs::new();
    for (i, pair) in pairs.iter().enumerate() {
        let left = after_merges(made.as_slice(), pair.0);
        let right = after_merges(made.as_slice(), pair.1);
        made.push((left, right));
    }
    made
}

fn add_new(list: &mut ColList, column: Col)
    requires { length list.old < most_in_order }
    ensures { list.new ≡ (if list_any (same_column column) list.old then list.old else list.old
        ++ column ∷ []) }
{
    if !list.has(column) {
        let pushed = list.try_push(column);
        prove!(pushed.is_ok());
    }
}

#[tactic(auto, using(crate::proofs::CanonWalks::canon_more, crate::proofs::CanonWalks::one_longer))]
fn canon_of(made: &[(Col, Col)], columns: &[Col]) -> ColList
    requires { length columns.now ≤ most_in_order }
    ensures { result ≡ distinct (map (after_merges made.now) columns.now) }
{
    let mut list = ColList::new();
    for column in columns {
        add_new(&mut list, after_merges(made, *column));
    }
    list
}

/// The list with the least column in place of each that the predicates make equal to it within the
/// set's quantifiers, and without repeats. It takes no memory.
#[tactic(auto, unfolding(star_model::specs::Canon::canon, star_model::specs::Canon::least_equal))]
pub fn canon(query: &Query, tables: QuantSet, preds: PredSet, list: &ColList) -> ColList
    requires { WellFormedQuery query.now }
    ensures { result ≡ canon query.now preds tables list.now }
{
    let pairs = equalities_within(query, preds, tables);
    let made = merges(pairs.as_slice());
    canon_of(made.as_slice(), list.as_slice())
}
