// The laws of the definitions, each the clause of a function that does nothing.

ghost use Rattle.std.specs.Prelude.{◌≡◌, ℕ, ◌+◌, ◌<◌, Bool, true, false, List, length, slice_index_or};
ghost use Rattle.star_model.specs.Sets.{single, union};
ghost use Rattle.star_model.specs.Predicates.{preds_where};
ghost use Rattle.star_model.specs.declared.query.Query.{Query};
ghost use Rattle.star_model.specs.declared.query.Pred.{Pred};
ghost use Rattle.query_facts.specs.GatheredPredicates.{gathered};

/// A walk over a query's predicates that adds each one that passes has the set of those that pass
/// at the end.
pub fn walks_gather_predicates()
    ensures none { (preds : List Pred) (test : Pred → Bool) → gathered preds test 0 ≡ 0 }
    ensures more { (preds : List Pred) (test : Pred → Bool) (k : ℕ) (d : Pred) → k < 32
        → k < length preds → test (slice_index_or preds k d) ≡ true
        → union (gathered preds test k) (single k) ≡ gathered preds test (k + 1) }
    ensures same { (preds : List Pred) (test : Pred → Bool) (k : ℕ) (d : Pred) → k < length preds
        → test (slice_index_or preds k d) ≡ false
        → gathered preds test k ≡ gathered preds test (k + 1) }
    ensures all { (q : Query) (test : Pred → Bool)
        → gathered q.preds test (length q.preds) ≡ preds_where q test }
{}
