// The columns of indexes.

ghost use Rattle.std.specs.Prelude.{◌≡◌, ◌≤◌, length, map};
ghost use Rattle.star_model.specs.Limits.{most_in_order};
ghost use Rattle.star_model.specs.Meaning.{is_index_of, is_index_on, index_columns};

use crate::homes::only_member;
use star_model::catalogue::IndexDef;
use star_model::columns::{Col, ColList, Quant};
use star_model::query::Query;
use star_model::sets::QuantSet;

/// Whether the index is on the quantifier's table.
pub fn is_index_of(query: &Query, quant: u8, index: &IndexDef) -> bool
    ensures { result ≡ is_index_of query.now quant index.now }
{
    query
        .quants
        .as_slice()
        .get(quant as usize)
        .is_some_and(|quantifier| quantifier.table == index.table)
}

/// Whether the set has one quantifier, and the index at this position is on its table.
pub fn is_index_on(query: &Query, tables: QuantSet, index: u8) -> bool
    ensures { result ≡ is_index_on query.now tables index }
{
    let Some(quant) = only_member(tables) else {
        return false;
    };
    query
        .catalogue
        .indexes
        .as_slice()
        .get(index as usize)
        .is_some_and(|found| is_index_of(query, quant, found))
}

fn columns_on(quant: u8, columns: &[u8]) -> ColList
    requires { length columns.now ≤ most_in_order }
    ensures { result ≡ map (λ c. record { quant = record { 0 = quant }; column = c }) columns.now }
{
    let mut found = ColList::new();
    for (i, column) in columns.iter().enumerate() {
        let pushed = found.try_push(Col {
            quant: Quant(quant),
            column: *column,
        });
        prove!(pushed.is_ok());
    }
    found
}

/// The columns of the index at this position, as columns of the one quantifier; none where there
/// are more, or the index is on another table.
pub fn index_columns(query: &Query, tables: QuantSet, index: u8) -> ColList
    ensures { result ≡ index_columns query.now tables index }
{
    let Some(quant) = only_member(tables) else {
        return ColList::new();
    };
    match query.catalogue.indexes.as_slice().get(index as usize) {
        Some(found) if is_index_of(query, quant, found) => {
            columns_on(quant, found.columns.as_slice())
        }
        _ => ColList::new(),
    }
}
