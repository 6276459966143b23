// The chains of Glue.

ghost use Rattle.std.specs.Prelude.{◌≡◌, ◌≤◌, length};

use star_model::plans::{Chain, GlueOp};

/// The lists of operators of Glue without repeats, the shorter first. Each chain is one of them.
pub const CHAINS: [&[GlueOp]; 16] = [
    &[],
    &[GlueOp::Sort],
    &[GlueOp::Ship],
    &[GlueOp::Store],
    &[GlueOp::Sort, GlueOp::Ship],
    &[GlueOp::Sort, GlueOp::Store],
    &[GlueOp::Ship, GlueOp::Sort],
    &[GlueOp::Ship, GlueOp::Store],
    &[GlueOp::Store, GlueOp::Sort],
    &[GlueOp::Store, GlueOp::Ship],
    &[GlueOp::Sort, GlueOp::Ship, GlueOp::Store],
    &[GlueOp::Sort, GlueOp::Store, GlueOp::Ship],
    &[GlueOp::Ship, GlueOp::Sort, GlueOp::Store],
    &[GlueOp::Ship, GlueOp::Store, GlueOp::Sort],
    &[GlueOp::Store, GlueOp::Sort, GlueOp::Ship],
    &[GlueOp::Store, GlueOp::Ship, GlueOp::Sort],
];

/// The chain of these operators.
pub fn chain_of(words: &[GlueOp]) -> Chain
    requires { length words.now ≤ 3 }
    ensures { result ≡ words.now }
{
    let mut chain = Chain::new();
    for (i, word) in words.iter().enumerate() {
        let pushed = chain.try_push(*word);
        prove!(pushed.is_ok());
    }
    chain
}
