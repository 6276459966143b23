// What the names of a query's statement stand for, and the query that it means.
ghost use Rattle.std.specs.Prelude.{◌≡◌, ◌≤◌, ◌<◌, length, map, IfOk, IfSome, Some, None, pos, neg_ℤ};
ghost use Rattle.star_model.specs.Limits.{least_integer_size, most_in_order, most_quantifiers};
ghost use Rattle.star_model.specs.WellFormed.{WellFormedCatalogue};
ghost use Rattle.spelling.specs.Names.{all_of};
ghost use Rattle.query_graph.specs.Queries.{quantifier_of, column_of, columns_of, operand_of, predicate_of, site_of, value_of, query_of};
ghost use Rattle.query_graph.specs.Words.{said_column, said_item, said_constant, said_side, said_comparison, said};
ghost use Rattle.query_graph.specs.Faults.{IsGreat, IsGreatSide, HasGreatConstant};
ghost use Rattle.query_graph.specs.Fitting.{Fits};

use crate::lookup::{column_place, quantifier_place, site_place, table_place};
use crate::names::quantifier_name;
use crate::words::{ColumnWords, ComparisonWords, ConstantWords, ItemWords, QueryWords, SideWords};
use query_facts::weigh;
use star_model::catalogue::{Catalogue, Value};
use star_model::columns::{Col, ColList, Quant, Site};
use star_model::lists::{List, Name};
use star_model::num::Num;
use star_model::query::{Operand, Pred, QuantDef, Query};
use star_model::selects::Selects;
use std::alloc::{AllocError, Global};

fn quantifier_of(
    alloc: Global,
    catalogue: &Catalogue,
    item: &ItemWords,
) -> Result<Option<QuantDef>, AllocError>
    requires { WellFormedCatalogue catalogue.now }
    ensures { IfOk result (λ found. found ≡ quantifier_of catalogue.now (said_item item.now)) }
{
    let Some(table) = table_place(catalogue, item.table.as_slice()) else {
        return Ok(None);
    };
    let name = Name::from_slice(alloc, quantifier_name(item))?;
    Ok(Some(QuantDef {
        name,
        table: table as u8,
    }))
}

fn quantifiers_of(
    alloc: Global,
    catalogue: &Catalogue,
    items: &[ItemWords],
) -> Result<Option<List<QuantDef>>, AllocError>
    requires { WellFormedCatalogue catalogue.now }
    ensures found { IfOk result (λ found. found
        ≡ all_of (map (quantifier_of catalogue.now) (map said_item items.now))) }
    ensures count { IfOk result (λ found. IfSome found (λ list. length list ≡ length items.now)) }
{
    let mut quantifiers = List::new(alloc);
    for item in items {
        let Some(quantifier) = quantifier_of(alloc, catalogue, item)? else {
            return Ok(None);
        };
        quantifiers.push(quantifier)?;
    }
    Ok(Some(quantifiers))
}

// The column. Of several quantifiers of one name the first counts.
fn column_of(catalogue: &Catalogue, quantifiers: &[QuantDef], column: &ColumnWords) -> Option<Col>
    requires catalogue { WellFormedCatalogue catalogue.now }
    requires few { length quantifiers.now ≤ most_quantifiers }
    ensures { result ≡ column_of catalogue.now quantifiers.now (said_column column.now) }
{
    let quant = quantifier_place(quantifiers, column.quantifier.as_slice())?;
    let quantifier = quantifiers.get(quant)?;
    let table = catalogue
        .tables
        .as_slice()
        .get(usize::from(quantifier.table))?;
    let column = column_place(table, column.column.as_slice())?;
    Some(Col {
        quant: Quant(quant as u8),
        column: column as u8,
    })
}

fn columns_of(
    alloc: Global,
    catalogue: &Catalogue,
    quantifiers: &[QuantDef],
    columns: &[ColumnWords],
) -> Result<Option<List<Col>>, AllocError>
    requires catalogue { WellFormedCatalogue catalogue.now }
    requires few { length quantifiers.now ≤ most_quantifiers }
    ensures { IfOk result (λ found. found ≡ columns_of catalogue.now quantifiers.now
        (map said_column columns.now)) }
{
    let mut found = List::new(alloc);
    for column in columns {
        let Some(column) = column_of(catalogue, quantifiers, column) else {
            return Ok(None);
        };
        found.push(column)?;
    }
    Ok(Some(found))
}

fn order_of(
    catalogue: &Catalogue,
    quantifiers: &[QuantDef],
    columns: &[ColumnWords],
) -> Option<ColList>
    requires catalogue { WellFormedCatalogue catalogue.now }
    requires few { length quantifiers.now ≤ most_quantifiers }
    requires short { length columns.now ≤ most_in_order }
    ensures { result ≡ columns_of catalogue.now quantifiers.now (map said_column columns.now) }
{
    let mut order = ColList::new();
    for column in columns {
        let column = column_of(catalogue, quantifiers, column)?;
        order.try_push(column).ok()?;
    }
    Some(order)
}

// The number with a minus sign.
fn negative(number: u64) -> i64
    requires { number ≤ least_integer_size }
    ensures { result ≡ neg_ℤ (pos number) }
{
    (-i128::from(number)) as i64
}

fn value_of(alloc: Global, constant: &ConstantWords) -> Result<Value, AllocError>
    requires { IsGreat (said_constant constant.now) → ⊥ }
    ensures { IfOk result (λ value. value ≡ value_of (said_constant constant.now)) }
{
    match constant {
        ConstantWords::Whole(number) => Ok(Value::Int(*number as i64)),
        ConstantWords::Negative(number) => Ok(Value::Int(negative(*number))),
        ConstantWords::Quoted(bytes) => Ok(Value::Text(bytes.copy(alloc)?)),
    }
}

fn operand_of(
    alloc: Global,
    catalogue: &Catalogue,
    quantifiers: &[QuantDef],
    side: &SideWords,
) -> Result<Option<Operand>, AllocError>
    requires catalogue { WellFormedCatalogue catalogue.now }
    requires few { length quantifiers.now ≤ most_quantifiers }
    requires small { IsGreatSide (said_side side.now) → ⊥ }
    ensures { IfOk result (λ found. found ≡ operand_of catalogue.now quantifiers.now
        (said_side side.now)) }
{
    match side {
        SideWords::Column(column) => match column_of(catalogue, quantifiers, column) {
            Some(column) => Ok(Some(Operand::Column(column))),
            None => Ok(None),
        },
        SideWords::Constant(constant) => Ok(Some(Operand::Constant(value_of(alloc, constant)?))),
    }
}

// The predicate, without a selectivity of its own yet.
fn predicate_of(
    alloc: Global,
    catalogue: &Catalogue,
    quantifiers: &[QuantDef],
    comparison: &ComparisonWords,
) -> Result<Option<Pred>, AllocError>
    requires catalogue { WellFormedCatalogue catalogue.now }
    requires few { length quantifiers.now ≤ most_quantifiers }
    requires small { IsGreatSide (said_side comparison.now.right) → ⊥ }
    ensures { IfOk result (λ found. found ≡ predicate_of catalogue.now quantifiers.now
        (said_comparison comparison.now)) }
{
    let Some(left) = column_of(catalogue, quantifiers, &comparison.left) else {
        return Ok(None);
    };
    let Some(right) = operand_of(alloc, catalogue, quantifiers, &comparison.right)? else {
        return Ok(None);
    };
    Ok(Some(Pred {
        left,
        cmp: comparison.cmp,
        right,
        num: Num::cut(1),
        den: Num::cut(1),
    }))
}

fn predicates_of(
    alloc: Global,
    catalogue: &Catalogue,
    quantifiers: &[QuantDef],
    comparisons: &[ComparisonWords],
) -> Result<Option<List<Pred>>, AllocError>
    requires catalogue { WellFormedCatalogue catalogue.now }
    requires few { length quantifiers.now ≤ most_quantifiers }
    requires small { HasGreatConstant (map said_comparison comparisons.now) → ⊥ }
    ensures { IfOk result (λ found. found ≡ all_of
        (map (predicate_of catalogue.now quantifiers.now) (map said_comparison comparisons.now))) }
{
    let mut predicates = List::new(alloc);
    for comparison in comparisons {
        let Some(predicate) = predicate_of(alloc, catalogue, quantifiers, comparison)? else {
            return Ok(None);
        };
        predicates.push(predicate)?;
    }
    Ok(Some(predicates))
}

// The site, where one is named. None where it isn't defined.
fn site_of(catalogue: &Catalogue, site: &Option<Name>) -> Option<Option<Site>>
    requires { WellFormedCatalogue catalogue.now }
    ensures { result ≡ site_of catalogue.now site.now }
{
    match site {
        Some(name) => {
            let place = site_place(catalogue, name.as_slice())?;
            Some(Some(Site(place as u8)))
        }
        None => Some(None),
    }
}

/// The query that the statement means, each predicate with the usual selectivity; none where it
/// names what isn't defined.
#[tactic(auto, unfolding(crate::specs::Queries::query_of))]
pub fn query_of(
    alloc: Global,
    catalogue: &Catalogue,
    words: &QueryWords,
) -> Result<Option<Query>, AllocError>
    requires catalogue { WellFormedCatalogue catalogue.now }
    requires fits { Fits words.now }
    ensures { IfOk result (λ found. found ≡ query_of catalogue.now (said words.now)) }
{
    let Some(quants) = quantifiers_of(alloc, catalogue, words.items.as_slice())? else {
        return Ok(None);
    };
    let Some(select) = columns_of(alloc, catalogue, quants.as_slice(), words.select.as_slice())?
    else {
        return Ok(None);
    };
    let Some(preds) = predicates_of(
        alloc,
        catalogue,
        quants.as_slice(),
        words.comparisons.as_slice(),
    )?
    else {
        return Ok(None);
    };
    let Some(order) = order_of(catalogue, quants.as_slice(), words.order.as_slice()) else {
        return Ok(None);
    };
    let Some(site) = site_of(catalogue, &words.site) else {
        return Ok(None);
    };
    let mut query = Query {
        catalogue: catalogue.copy(alloc)?,
        quants,
        select,
        preds,
        order,
        site,
    };
    weigh(&mut query, &Selects::new(alloc));
    Ok(Some(query))
}
