// The tables of a query, by their numbers in the catalogue.
ghost use Rattle.std.specs.Prelude.{◌≡◌, IfOk};
ghost use Rattle.table_taking.specs.QueryTables.{tables_of};

use star_model::query::Query;
use std::alloc::{AllocError, Global};

// Each table once, by its first quantifier.
pub fn tables_of(alloc: Global, query: &Query) -> Result<Vec<u8>, AllocError>
    ensures { IfOk result (λ numbers. numbers.items ≡ tables_of query.now) }
{
    let mut numbers = Vec::new(alloc);
    for quant in query.quants.as_slice() {
        if !numbers.contains(&quant.table) {
            numbers.push(quant.table)?;
        }
    }
    Ok(numbers)
}
