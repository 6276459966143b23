// The types of what the predicates of a query compare.
ghost use Rattle.std.specs.Prelude.{◌≡◌, ◌<◌, ◌≤◌, length, MatchOption, IfSome};
ghost use Rattle.std.specs.List.{position_from};
ghost use Rattle.star_model.specs.Limits.{most_predicates};
ghost use Rattle.star_model.specs.WellFormed.{type_of, type_of_value, type_of_operand};
ghost use Rattle.spelling.specs.Firsts.{FirstAt, NoneHas};
ghost use Rattle.query_graph.specs.Faults.{HasTwoTypes};
ghost use Rattle.query_graph.specs.TypeTests.{are_two, has_two_types};

use star_model::catalogue::{ColType, Value};
use star_model::columns::Col;
use star_model::query::{Operand, Pred, Query};

fn type_of(query: &Query, column: Col) -> Option<ColType>
    ensures { result ≡ type_of query.now column }
{
    let quantifier = query.quants.as_slice().get(usize::from(column.quant.0))?;
    let table = query
        .catalogue
        .tables
        .as_slice()
        .get(usize::from(quantifier.table))?;
    let definition = table.columns.as_slice().get(usize::from(column.column))?;
    Some(definition.kind)
}

fn type_of_value(value: &Value) -> ColType
    ensures { result ≡ type_of_value value.now }
{
    match value {
        Value::Int(_) => ColType::Int,
        Value::Text(_) => ColType::Text,
    }
}

fn type_of_operand(query: &Query, operand: &Operand) -> Option<ColType>
    ensures { result ≡ type_of_operand query.now operand.now }
{
    match operand {
        Operand::Column(column) => type_of(query, *column),
        Operand::Constant(value) => Some(type_of_value(value)),
    }
}

// Whether both are there and differ.
fn are_two(left: Option<ColType>, right: Option<ColType>) -> bool
    ensures { result ≡ are_two left right }
{
    match (left, right) {
        (Some(ColType::Int), Some(ColType::Text)) => true,
        (Some(ColType::Text), Some(ColType::Int)) => true,
        _ => false,
    }
}

fn has_two_types(query: &Query, predicate: &Pred) -> bool
    ensures { result ≡ has_two_types query.now predicate.now }
{
    are_two(
        type_of(query, predicate.left),
        type_of_operand(query, &predicate.right),
    )
}

fn clash_place(query: &Query, predicates: &[Pred]) -> Option<usize>
    ensures place { result ≡ position_from (has_two_types query.now) 0 predicates.now }
    ensures within { IfSome result (λ n. n < length predicates.now) }
{
    predicates
        .iter()
        .position(|predicate| has_two_types(query, predicate))
}

/// The number, from 1, of the first predicate that compares two types.
pub fn first_clash(query: &Query) -> Option<u32>
    requires { length query.now.preds ≤ most_predicates }
    ensures { MatchOption result (NoneHas (λ before p. HasTwoTypes query.now p) query.now.preds)
        (FirstAt (λ before p. HasTwoTypes query.now p) query.now.preds) }
{
    let place = clash_place(query, query.preds.as_slice())?;
    Some(place as u32 + 1)
}
