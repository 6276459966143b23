// Chains of Glue: which operators a requirement names. None of it takes memory.

ghost use Rattle.std.specs.Prelude.{◌≡◌, ◌&&◌};
ghost use Rattle.std.specs.List.{list_all};
ghost use Rattle.star_model.specs.Plans.{names, is_chain, rank, differs};

use star_model::plans::{GlueOp, Require};

fn rank(word: GlueOp) -> u8
    ensures { result ≡ rank word }
{
    match word {
        GlueOp::Sort => 0,
        GlueOp::Ship => 1,
        GlueOp::Store => 2,
    }
}

fn differs(word: GlueOp, other: GlueOp) -> bool
    ensures { result ≡ differs word other }
{
    rank(word) != rank(other)
}

fn names(require: &Require, word: GlueOp) -> bool
    ensures { result ≡ names require.now word }
{
    match word {
        GlueOp::Sort => require.order.len() != 0,
        GlueOp::Ship => require.site.is_some(),
        GlueOp::Store => require.temp || require.path.len() != 0,
    }
}

fn is_none_of(word: GlueOp, others: &[GlueOp]) -> bool
    ensures { result ≡ list_all (differs word) others.now }
{
    others.iter().all(|other| differs(word, *other))
}

// Whether the requirement names the operator, and it is none of the others.
fn is_new_word(require: &Require, word: GlueOp, others: &[GlueOp]) -> bool
    ensures { result ≡ (names require.now word && list_all (differs word) others.now) }
{
    names(require, word) && is_none_of(word, others)
}

/// Whether the requirement names each of these operators, and none comes twice.
#[tactic(auto, unfolding(star_model::specs::Plans::is_chain))]
pub fn is_chain(require: &Require, words: &[GlueOp]) -> bool
    ensures { result ≡ is_chain require.now words.now }
{
    match words {
        [] => true,
        [word, more @ ..] => is_new_word(require, *word, more) && is_chain(require, more),
    }
}
