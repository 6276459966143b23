// Reading the operators of Glue.
ghost use Rattle.std.specs.Prelude.{◌≡◌};
ghost use Rattle.spelling.specs.Reading.{Reads};
ghost use Rattle.derivation_reading.specs.StatementReading.{glue_operator, chain_at};

use spelling::Cursor;
use star_model::plans::{Chain, GlueOp};

fn glue_operator(word: &[u8]) -> Option<GlueOp>
    ensures { result ≡ glue_operator word.now }
{
    match word {
        b"sort" => Some(GlueOp::Sort),
        b"ship" => Some(GlueOp::Ship),
        b"store" => Some(GlueOp::Store),
        _ => None,
    }
}

/// The operators that are named next, of which there may be none. A word behind the third isn't
/// passed.
pub fn chain(cursor: &mut Cursor<'_>) -> Option<Chain>
    ensures { Reads (chain_at cursor.old) result cursor.new }
{
    let mut chain = Chain::new();
    for turn in 0..3u8 {
        let Some(word) = cursor.word() else {
            return Some(chain);
        };
        let operator = glue_operator(word)?;
        let pushed = chain.try_push(operator);
        prove!(pushed.is_ok());
    }
    Some(chain)
}
