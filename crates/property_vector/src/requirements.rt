// What is required of a vector.

ghost use Rattle.std.specs.Prelude.{◌≡◌};
ghost use Rattle.star_model.specs.Requirements.{is_at, satisfies};
ghost use Rattle.star_model.specs.WellFormed.{WellFormedQuery};

use crate::canonical::canon;
use star_model::columns::Site;
use star_model::plans::{Props, Require};
use star_model::query::Query;

fn is_at(wanted: Option<Site>, site: Site) -> bool
    ensures { result ≡ is_at wanted site }
{
    match wanted {
        None => true,
        Some(wanted) => wanted == site,
    }
}

/// Whether the vector has the order, the site, the temporary and the path that are required. It
/// takes no memory.
#[tactic(auto, unfolding(star_model::specs::Requirements::satisfies))]
pub fn satisfies(query: &Query, v: &Props, require: &Require) -> bool
    requires { WellFormedQuery query.now }
    ensures { result ≡ satisfies query.now v.now require.now }
{
    v.order
        .begins_with(&canon(query, v.tables, v.preds, &require.order))
        && is_at(require.site, v.site)
        && (!require.temp || v.temp)
        && v.path.begins_with(&require.path)
}
