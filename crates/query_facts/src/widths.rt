// The width of rows.

ghost use Rattle.std.specs.Prelude.{◌≡◌, ◌<◌, sum_by, slice_index, slice_get};
ghost use Rattle.std.specs.Option.{option_map};
ghost use Rattle.star_model.specs.Limits.{most_quantifiers};
ghost use Rattle.star_model.specs.Numbers.{cut};
ghost use Rattle.star_model.specs.Sets.{members};
ghost use Rattle.star_model.specs.Operators.{width_at, width_of};
ghost use Rattle.query_facts.specs.Widths.{width_in};

use crate::cardinality::table_of;
use star_model::catalogue::ColumnDef;
use star_model::columns::{Col, ColSet, Quant};
use star_model::num::{Num, cap_add};
use star_model::query::Query;

// The bytes of the column at this position, where the table has it.
fn width_in(columns: &[ColumnDef], column: u8) -> Option<Num>
    ensures { result ≡ option_map (λ d. d.width) (slice_get columns.now column) }
{
    columns.get(usize::from(column)).map(|found| found.width)
}

// The bytes of the set's columns of a quantifier whose table has these columns. The others have
// none.
#[tactic(auto, using(crate::proofs::WidthSums::column_rules))]
fn columns_width(columns: &[ColumnDef], cols: &ColSet, quant: u8) -> Num
    requires { quant < most_quantifiers }
    ensures { result ≡ cut (sum_by (width_in columns.now) (members (slice_index cols.now quant))) }
{
    let mut sum = Num::cut(0);
    for column in 0..32 {
        let Some(width) = width_in(columns, column) else {
            return sum;
        };
        let col = Col {
            quant: Quant(quant),
            column,
        };
        if cols.has(col) {
            sum = cap_add(sum, width);
        }
    }
    sum
}

// The bytes of the set's columns of a quantifier.
fn quantifier_width(query: &Query, cols: &ColSet, quant: u8) -> Num
    requires { quant < most_quantifiers }
    ensures { result ≡ cut (sum_by (λ c. width_at query.now
        (record { quant = record { 0 = quant }; column = c }))
        (members (slice_index cols.now quant))) }
{
    match table_of(query, quant) {
        Some(table) => columns_width(table.columns.as_slice(), cols, quant),
        None => Num::cut(0),
    }
}

/// The bytes of a row of these columns.
#[tactic(auto, using(crate::proofs::WidthSums::quantifier_rules))]
pub fn width(query: &Query, cols: &ColSet) -> Num
    ensures { result ≡ width_of query.now cols.now }
{
    let mut sum = Num::cut(0);
    for quant in 0..12 {
        if usize::from(quant) >= query.quants.len() {
            return sum;
        }
        sum = cap_add(sum, quantifier_width(query, cols, quant));
    }
    sum
}
