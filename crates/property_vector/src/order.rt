// The order of vectors.

ghost use Rattle.std.specs.Prelude.{◌≡◌};
ghost use Rattle.star_model.specs.Vectors.{same_relation, is_better};
ghost use Rattle.property_vector.specs.Comparing.{is_no_worse};

use star_model::plans::Props;

fn have_same_relation(v: &Props, w: &Props) -> bool
    ensures { result ≡ same_relation v.now w.now }
{
    v.tables == w.tables && v.cols == w.cols && v.preds == w.preds
}

fn is_no_worse(v: &Props, w: &Props) -> bool
    ensures { result ≡ is_no_worse v.now w.now }
{
    v.site == w.site
        && v.cost <= w.cost
        && v.rescan <= w.rescan
        && v.order.begins_with(&w.order)
        && v.path.begins_with(&w.path)
        && (!w.temp || v.temp)
}

/// Whether a plan with the first vector may stand in place of one with the second: for the same
/// rows at the same site it costs no more, at first and again, and has what the other has of order,
/// path and temporary. It takes no memory.
///
/// It is no total order: of two vectors often neither is better.
#[tactic(auto, using(crate::proofs::CostsFirst::better_read))]
pub fn better(v: &Props, w: &Props) -> bool
    ensures { result ≡ is_better v.now w.now }
{
    // Plans of one goal have the same relation, so what tells most of them apart comes first.
    is_no_worse(v, w) && have_same_relation(v, w)
}
