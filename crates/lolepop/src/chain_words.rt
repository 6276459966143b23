// The operators of Glue.

ghost use Rattle.std.specs.Prelude.{◌≡◌};
ghost use Rattle.star_model.specs.Plans.{op_of, site_wanted};

use star_model::columns::Site;
use star_model::plans::{GlueOp, Op, Require};

/// The operator that a word of a chain stands for. It takes no memory.
pub fn glue_operator(require: &Require, word: GlueOp) -> Op
    ensures { result ≡ op_of require.now word }
{
    match word {
        GlueOp::Sort => Op::Sort {
            cols: require.order.copied(),
        },
        GlueOp::Ship => Op::Ship {
            site: site_wanted(require.site),
        },
        GlueOp::Store => Op::Store {
            cols: require.path.copied(),
        },
    }
}

// A chain names SHIP only where a site is required.
fn site_wanted(site: Option<Site>) -> Site
    ensures { result ≡ site_wanted site }
{
    site.unwrap_or(Site(0))
}
