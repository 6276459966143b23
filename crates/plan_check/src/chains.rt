// The vector of a chain of Glue over an input.

ghost use Rattle.std.specs.Prelude.{◌≡◌};
ghost use Rattle.star_model.specs.Plans.{chain_vector};
ghost use Rattle.star_model.specs.WellFormed.{WellFormedQuery};

use lolepop::{glue_operator, step};
use star_model::costs::Costs;
use star_model::plans::{GlueOp, Props, Require};
use star_model::query::Query;

// The vector of these operators over the input, the first next to it; none where one isn't
// applicable.
pub fn chain_vector(
    query: &Query,
    costs: &Costs,
    require: &Require,
    words: &[GlueOp],
    input: Props,
) -> Option<Props>
    requires { WellFormedQuery query.now }
    ensures { result ≡ chain_vector query.now costs.now require.now words.now input }
{
    match words {
        [] => Some(input),
        [word, more @ ..] => {
            let op = glue_operator(require, *word);
            let made = step(query, costs, &op, &[input])?;
            chain_vector(query, costs, require, more, made)
        }
    }
}
