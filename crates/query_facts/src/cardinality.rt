// The estimated number of rows.

ghost use Rattle.std.specs.Prelude.{◌≡◌, ◌≤◌, length, ◌&&◌, nat_lt, option_copied};
ghost use Rattle.star_model.specs.Limits.{most_predicates};
ghost use Rattle.star_model.specs.Sets.{has};
ghost use Rattle.star_model.specs.Cardinality.{card, table_of, rows_of, distinct_of, ends_at, preds_at};
ghost use Rattle.star_model.specs.WellFormed.{WellFormedQuery};

use star_model::catalogue::TableDef;
use star_model::columns::Col;
use star_model::num::{Num, cap_div, cap_mul};
use star_model::query::{Operand, Pred, Query};
use star_model::sets::{PredSet, QuantSet};

/// The estimated number of choices of one row for each quantifier of the set that make these
/// predicates true.
#[tactic(auto, using(crate::proofs::MemberWalks::member_rules), unfolding(star_model::specs::Cardinality::card))]
pub fn card(query: &Query, tables: QuantSet, preds: PredSet) -> Num
    requires { WellFormedQuery query.now }
    ensures { result ≡ card query.now tables preds }
{
    let mut rows = Num::cut(1);
    let mut left = tables.len();
    for quant in 0..32 {
        if left == 0 {
            return rows;
        }
        if tables.has(quant) {
            left -= 1;
            let read = cap_mul(rows, rows_of(query, quant));
            rows = after_preds(query, tables, preds, quant, read);
        }
    }
    rows
}

// So many rows, after the predicates whose last quantifier in the set is this one.
fn after_preds(query: &Query, tables: QuantSet, preds: PredSet, quant: u8, read: Num) -> Num
    requires { length query.now.preds ≤ most_predicates }
    ensures { result ≡ preds_at query.now tables preds quant read }
{
    let mut rows = read;
    for (n, pred) in query.preds.as_slice().iter().enumerate() {
        if preds.has(n as u8) && ends_at(tables, quant, pred) {
            rows = cap_div(cap_mul(rows, pred.num), pred.den);
        }
    }
    rows
}

// Whether it is the last of the predicate's quantifiers that are in the set.
fn ends_at(tables: QuantSet, quant: u8, pred: &Pred) -> bool
    ensures { result ≡ ends_at tables quant pred.now }
{
    let left = pred.left.quant.0;
    match &pred.right {
        Operand::Column(column) => {
            let right = column.quant.0;
            (quant == left || quant == right)
                && tables.has(quant)
                && !is_later(tables, left, quant)
                && !is_later(tables, right, quant)
        }
        Operand::Constant(_) => quant == left && tables.has(quant),
    }
}

// Whether the other quantifier is in the set and later.
fn is_later(tables: QuantSet, other: u8, quant: u8) -> bool
    ensures { result ≡ (has tables other && nat_lt quant other) }
{
    tables.has(other) && quant < other
}

/// The rows of the quantifier's table, 0 where there is none.
pub fn rows_of(query: &Query, quant: u8) -> Num
    ensures { result ≡ rows_of query.now quant }
{
    table_of(query, quant).map_or(Num::cut(0), |table| table.rows)
}

/// The distinct values of the column, 0 where there is none.
pub fn distinct_of(query: &Query, column: Col) -> Num
    ensures { result ≡ distinct_of query.now column }
{
    table_of(query, column.quant.0)
        .and_then(|table| table.columns.as_slice().get(column.column as usize))
        .map_or(Num::cut(0), |column| column.distinct)
}

/// The table of the quantifier at this position, if there is one.
pub fn table_of(query: &Query, quant: u8) -> Option<&TableDef>
    ensures { option_copied result ≡ table_of query.now quant }
{
    let quantifier = query.quants.as_slice().get(quant as usize)?;
    query
        .catalogue
        .tables
        .as_slice()
        .get(quantifier.table as usize)
}
