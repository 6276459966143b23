// Where names stand among what is defined.
ghost use Rattle.std.specs.Prelude.{◌≡◌, ◌<◌, length, map, IfSome};
ghost use Rattle.star_model.specs.Names.{place_of};

use star_model::catalogue::{Catalogue, TableDef};
use star_model::query::QuantDef;

/// The position of the table of this name.
pub fn table_place(catalogue: &Catalogue, name: &[u8]) -> Option<usize>
    ensures place { result ≡ place_of name.now (map (λ t. t.name) catalogue.now.tables) }
    ensures within { IfSome result (λ n. n < length catalogue.now.tables) }
{
    catalogue
        .tables
        .as_slice()
        .iter()
        .position(|table| name == table.name.as_slice())
}

/// The position of the site of this name.
pub fn site_place(catalogue: &Catalogue, name: &[u8]) -> Option<usize>
    ensures place { result ≡ place_of name.now (map (λ s. s.name) catalogue.now.sites) }
    ensures within { IfSome result (λ n. n < length catalogue.now.sites) }
{
    catalogue
        .sites
        .as_slice()
        .iter()
        .position(|site| name == site.name.as_slice())
}

/// The position of the column of this name in its table.
pub fn column_place(table: &TableDef, name: &[u8]) -> Option<usize>
    ensures place { result ≡ place_of name.now (map (λ d. d.name) table.now.columns) }
    ensures within { IfSome result (λ n. n < length table.now.columns) }
{
    table
        .columns
        .as_slice()
        .iter()
        .position(|column| name == column.name.as_slice())
}

/// The position of the first quantifier of this name.
pub fn quantifier_place(quantifiers: &[QuantDef], name: &[u8]) -> Option<usize>
    ensures place { result ≡ place_of name.now (map (λ d. d.name) quantifiers.now) }
    ensures within { IfSome result (λ n. n < length quantifiers.now) }
{
    quantifiers
        .iter()
        .position(|quantifier| name == quantifier.name.as_slice())
}
