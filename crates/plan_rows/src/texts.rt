// The query and the formulas of a table's files.
ghost use Rattle.star_model.specs.WellFormed.{WellFormedCatalogue, WellFormedQuery};

use crate::questions::asked;
use catalogue::read_catalogue;
use lolepop::weigh;
use query_graph::read_query;
use row_tables::Table;
use star_model::catalogue::Catalogue;
use star_model::costs::Costs;
use star_model::query::Query;
use star_model::rules::RuleFile;
use star_model::selects::Selects;
use star_syntax::read_rules;
use std::alloc::{AllocError, Global};

/// The greatest length of a text in bytes.
pub const LONGEST: usize = 1_048_576;

// The first formula of each operator and cost.
fn costs_of(alloc: Global, rules: &RuleFile) -> Result<Costs, AllocError> {
    let mut costs = Costs::new(alloc);
    for each in rules.formulas.as_slice() {
        if costs.formula(each.flavour, each.which).is_none() {
            costs.put(each.flavour, each.which, each.formula.copy(alloc)?)?;
        }
    }
    Ok(costs)
}

// The first selectivity of each class.
fn selects_of(alloc: Global, rules: &RuleFile) -> Result<Selects, AllocError> {
    let mut selects = Selects::new(alloc);
    for each in rules.selects.as_slice() {
        if selects.num(each.class).is_none() {
            let num = each.num.copy(alloc)?;
            let den = each.den.copy(alloc)?;
            selects.put(each.class, num, den)?;
        }
    }
    Ok(selects)
}

// The formulas and the selectivities of a rule file; none where the text spells none.
fn formulas_in(alloc: Global, rules: &str) -> Result<(Costs, Selects), AllocError> {
    if rules.len() > LONGEST {
        return Err(AllocError);
    }
    match read_rules(alloc, rules.as_bytes()) {
        Ok(rules) => Ok((costs_of(alloc, &rules)?, selects_of(alloc, &rules)?)),
        Err(_) => Ok((Costs::new(alloc), Selects::new(alloc))),
    }
}

// The query, with these selectivities.
fn weighed(mut query: Query, selects: &Selects) -> Query
    requires { WellFormedQuery query }
    ensures { WellFormedQuery result }
{
    weigh(&mut query, selects);
    query
}

// What comes of a text over a catalogue and the text of a query.
fn answer_over(
    alloc: Global,
    catalogue: &Catalogue,
    table: &Table,
    text: &str,
) -> Result<String, AllocError>
    requires { WellFormedCatalogue catalogue.now }
{
    let query = table.file(1, text);
    if query.len() > LONGEST {
        return Err(AllocError);
    }
    let (costs, selects) = formulas_in(alloc, table.file(2, text))?;
    match read_query(alloc, catalogue, query.as_bytes()) {
        Ok(query) => {
            let query = weighed(query, &selects);
            asked(alloc, table.kind.as_str(), &query, &costs, text)
        }
        Err(fault) => format!(in alloc; "{fault:?}"),
    }
}

/// What comes of the text of a row.
pub fn answer(alloc: Global, table: &Table, text: &str) -> Result<String, AllocError> {
    let catalogue = table.file(0, text);
    if catalogue.len() > LONGEST {
        return Err(AllocError);
    }
    match read_catalogue(alloc, catalogue.as_bytes()) {
        Ok(catalogue) => answer_over(alloc, &catalogue, table, text),
        Err(fault) => format!(in alloc; "{fault:?}"),
    }
}
