// A table of the sets of calls of STARs.
ghost use Rattle.star_model.specs.WellFormed.{WellFormedQuery};

use crate::goals::own_goal;
use crate::sets::{lines_of, own_plans};
use search_places::root_name;
use shared_sets::RefTable;
use star_check::CheckedRules;
use star_model::lists::Name;
use star_model::query::Query;
use star_model::sets::QuantSet;
use star_value::{Env, root_values};
use std::alloc::{AllocError, Global};

// The costs of what the table has for the call, a line for each.
fn found(alloc: Global, table: &RefTable, star: &Name, env: &Env) -> Result<String, AllocError> {
    match table.find(star, env) {
        None => String::from_str(alloc, "none\n"),
        Some(plans) => lines_of(alloc, plans),
    }
}

/// What a table has for the call of a root STAR before the set of the query's goal is kept for it,
/// and after; and then for another root STAR with the same values, and for the same with other
/// values, or with none.
pub fn told_kept(alloc: Global, rules: &CheckedRules, query: &Query) -> Result<String, AllocError>
    requires { WellFormedQuery query.now }
{
    let goal = own_goal(query);
    let all = goal.tables;
    let (star, other) = (root_name(rules, None), root_name(rules, Some((all, all))));
    let values = root_values(goal, None);
    let mut table = RefTable::new(alloc);
    let before = found(alloc, &table, star, &values)?;
    table.keep(star, &values, own_plans(alloc, rules, query)?)?;
    let after = found(alloc, &table, star, &values)?;
    let another = found(alloc, &table, other, &values)?;
    let others = found(
        alloc,
        &table,
        star,
        &root_values(goal, Some((all, QuantSet::empty()))),
    )?;
    let nothing = found(alloc, &table, star, &Env::new())?;
    format!(in alloc;
        "before: {before}kept:\n{after}another STAR: {another}other values: {others}no values: {nothing}"
    )
}
