// The limits that a query's statement goes beyond.
ghost use Rattle.std.specs.Prelude.{◌≡◌};
ghost use Rattle.std.specs.List.{list_any};
ghost use Rattle.query_graph.specs.LimitTests.{is_great, is_great_side, is_long, is_long_if_any, has_long_column, has_long_item, has_long_side, has_long_comparison, has_long_name, first_count, first_limit};

use crate::words::{ColumnWords, ComparisonWords, ConstantWords, ItemWords, QueryWords, SideWords};
use star_model::faults::LimitKind;
use star_model::lists::Name;

const GREATEST: u64 = 9_223_372_036_854_775_807;

const LEAST: u64 = 9_223_372_036_854_775_808;

const NAME_BYTES: usize = 64;

const QUANTIFIERS: usize = 12;

const PREDICATES: usize = 16;

const SELECT_COLUMNS: usize = 64;

const ORDER_COLUMNS: usize = 16;

// Whether the constant is outside 64 bits with a sign.
fn is_great(constant: &ConstantWords) -> bool
    ensures { result ≡ is_great constant.now }
{
    match constant {
        ConstantWords::Whole(number) => *number > GREATEST,
        ConstantWords::Negative(number) => *number > LEAST,
        ConstantWords::Quoted(_) => false,
    }
}

fn is_great_side(side: &SideWords) -> bool
    ensures { result ≡ is_great_side side.now }
{
    match side {
        SideWords::Column(_) => false,
        SideWords::Constant(constant) => is_great(constant),
    }
}

fn has_great_constant(comparisons: &[ComparisonWords]) -> bool
    ensures { result ≡ list_any (λ p. is_great_side p.right) comparisons.now }
{
    comparisons
        .iter()
        .any(|comparison| is_great_side(&comparison.right))
}

fn is_long(name: &Name) -> bool
    ensures { result ≡ is_long name.now }
{
    name.len() > NAME_BYTES
}

fn is_long_if_any(name: &Option<Name>) -> bool
    ensures { result ≡ is_long_if_any name.now }
{
    match name {
        Some(name) => is_long(name),
        None => false,
    }
}

fn has_long_column(column: &ColumnWords) -> bool
    ensures { result ≡ has_long_column column.now }
{
    is_long(&column.quantifier) || is_long(&column.column)
}

fn has_long_item(item: &ItemWords) -> bool
    ensures { result ≡ has_long_item item.now }
{
    is_long(&item.table) || is_long_if_any(&item.name)
}

fn has_long_side(side: &SideWords) -> bool
    ensures { result ≡ has_long_side side.now }
{
    match side {
        SideWords::Column(column) => has_long_column(column),
        SideWords::Constant(_) => false,
    }
}

fn has_long_comparison(comparison: &ComparisonWords) -> bool
    ensures { result ≡ has_long_comparison comparison.now }
{
    has_long_column(&comparison.left) || has_long_side(&comparison.right)
}

fn has_long_columns(columns: &[ColumnWords]) -> bool
    ensures { result ≡ list_any has_long_column columns.now }
{
    columns.iter().any(has_long_column)
}

fn has_long_items(items: &[ItemWords]) -> bool
    ensures { result ≡ list_any has_long_item items.now }
{
    items.iter().any(has_long_item)
}

fn has_long_comparisons(comparisons: &[ComparisonWords]) -> bool
    ensures { result ≡ list_any has_long_comparison comparisons.now }
{
    comparisons.iter().any(has_long_comparison)
}

fn has_long_name(words: &QueryWords) -> bool
    ensures { result ≡ has_long_name words.now }
{
    has_long_columns(words.select.as_slice())
        || has_long_items(words.items.as_slice())
        || has_long_comparisons(words.comparisons.as_slice())
        || has_long_columns(words.order.as_slice())
        || is_long_if_any(&words.site)
}

fn first_count(words: &QueryWords) -> Option<LimitKind>
    ensures { result ≡ first_count words.now }
{
    if words.items.len() > QUANTIFIERS {
        Some(LimitKind::Quantifiers)
    } else if words.comparisons.len() > PREDICATES {
        Some(LimitKind::Predicates)
    } else if words.select.len() > SELECT_COLUMNS {
        Some(LimitKind::Select)
    } else if words.order.len() > ORDER_COLUMNS {
        Some(LimitKind::OrderBy)
    } else {
        None
    }
}

/// The first limit that the statement goes beyond, in the order of the limits.
pub fn first_limit(words: &QueryWords) -> Option<LimitKind>
    ensures { result ≡ first_limit words.now }
{
    if has_great_constant(words.comparisons.as_slice()) {
        Some(LimitKind::Number)
    } else if has_long_name(words) {
        Some(LimitKind::Name)
    } else {
        first_count(words)
    }
}
