// Members of sets of quantifiers, and the sites of their tables.

ghost use Rattle.std.specs.Prelude.{◌≡◌, slice_get};
ghost use Rattle.star_model.specs.Sets.{members};
ghost use Rattle.star_model.specs.Meaning.{only_member, site_of, home_of, site_asked};

use crate::cardinality::table_of;
use star_model::columns::Site;
use star_model::query::Query;
use star_model::sets::QuantSet;

#[tactic(auto, using(crate::proofs::MemberWalks::member_rules))]
fn first_member(tables: QuantSet) -> Option<u8>
    ensures { result ≡ slice_get (members tables) 0 }
{
    for quant in 0..32 {
        if tables.has(quant) {
            return Some(quant);
        }
    }
    None
}

/// The quantifier of a set that has no other.
#[tactic(auto, using(crate::proofs::OnlyMembers::only_rules))]
pub fn only_member(tables: QuantSet) -> Option<u8>
    ensures { result ≡ only_member tables }
{
    if tables.len() == 1 {
        first_member(tables)
    } else {
        None
    }
}

fn site_of(query: &Query, quant: u8) -> Site
    ensures { result ≡ site_of query.now quant }
{
    table_of(query, quant).map_or(Site(0), |table| table.site)
}

/// The site of the table of the set's first quantifier.
pub fn home(query: &Query, tables: QuantSet) -> Site
    ensures { result ≡ home_of query.now tables }
{
    first_member(tables).map_or(Site(0), |quant| site_of(query, quant))
}

/// The site that the query names, or else that of its first quantifier's table.
pub fn site_asked(query: &Query) -> Site
    ensures { result ≡ site_asked query.now }
{
    query.site.unwrap_or(site_of(query, 0))
}
