// What the variables of an operator's formulas stand for.

ghost use Rattle.std.specs.Prelude.{◌≡◌, option_copied, slice_get};
ghost use Rattle.std.specs.Option.{option_map_or};
ghost use Rattle.star_model.specs.Operators.{table_under, rows_under, pages_under, rows_read, pages_read, cpu_at, net_at, works_at, net_of, cols_after, input_at, vars_of, width_of};
ghost use Rattle.lolepop.specs.Inputs.{vectors, vector_in};
ghost use Rattle.lolepop.specs.Widths.{without_widths};

use crate::arguments::applied;
use crate::inputs::Inputs;
use query_facts::{only_member, table_of, width};
use star_model::catalogue::TableDef;
use star_model::columns::{ColSet, Site};
use star_model::formula::Vars;
use star_model::num::{Num, cap_add};
use star_model::plans::{Op, Props};
use star_model::query::Query;
use star_model::sets::QuantSet;

// The table of the set's one quantifier.
fn table_under(query: &Query, tables: QuantSet) -> Option<&TableDef>
    ensures { option_copied result ≡ table_under query.now tables }
{
    table_of(query, only_member(tables)?)
}

fn rows_under(query: &Query, tables: QuantSet) -> Num
    ensures { result ≡ rows_under query.now tables }
{
    table_under(query, tables).map_or(Num::cut(0), |table| table.rows)
}

fn pages_under(query: &Query, tables: QuantSet) -> Num
    ensures { result ≡ pages_under query.now tables }
{
    table_under(query, tables).map_or(Num::cut(0), |table| table.pages)
}

fn rows_read(query: &Query, op: &Op) -> Num
    ensures { result ≡ rows_read query.now op.now }
{
    match op {
        Op::AccessHeap { over, .. } | Op::AccessIndex { over, .. } | Op::Get { over, .. } =>
            rows_under(query, *over),
        Op::Filter { .. }
        | Op::Sort { .. }
        | Op::Store { .. }
        | Op::Ship { .. }
        | Op::Probe { .. }
        | Op::JoinNl { .. }
        | Op::JoinMerge { .. }
        | Op::JoinHash { .. }
        | Op::Intersect => Num::cut(0),
    }
}

fn pages_of_index(query: &Query, index: u8) -> Num
    ensures { result ≡ option_map_or (λ i. i.pages) (slice_get query.now.catalogue.indexes index)
        0 }
{
    query
        .catalogue
        .indexes
        .as_slice()
        .get(usize::from(index))
        .map_or(Num::cut(0), |index| index.pages)
}

fn pages_read(query: &Query, op: &Op) -> Num
    ensures { result ≡ pages_read query.now op.now }
{
    match op {
        Op::AccessHeap { over, .. } | Op::Get { over, .. } => pages_under(query, *over),
        Op::AccessIndex { index, .. } => pages_of_index(query, *index),
        Op::Filter { .. }
        | Op::Sort { .. }
        | Op::Store { .. }
        | Op::Ship { .. }
        | Op::Probe { .. }
        | Op::JoinNl { .. }
        | Op::JoinMerge { .. }
        | Op::JoinHash { .. }
        | Op::Intersect => Num::cut(0),
    }
}

fn cpu_at(query: &Query, site: Site) -> Num
    ensures { result ≡ cpu_at query.now site }
{
    query
        .catalogue
        .sites
        .as_slice()
        .get(usize::from(site.0))
        .map_or(Num::cut(0), |site| site.cpu)
}

fn net_at(query: &Query, site: Site) -> Num
    ensures { result ≡ net_at query.now site }
{
    query
        .catalogue
        .sites
        .as_slice()
        .get(usize::from(site.0))
        .map_or(Num::cut(0), |site| site.net)
}

// The site where the operator works: that of its result, but a shipment works where it ships from.
fn works_at(op: &Op, inputs: &Inputs<'_>, made: &Props) -> Site
    ensures { result ≡ works_at op.now (vectors inputs.now) made.now }
{
    match op {
        Op::Ship { .. } => inputs.first_site(),
        Op::AccessHeap { .. }
        | Op::AccessIndex { .. }
        | Op::Get { .. }
        | Op::Filter { .. }
        | Op::Sort { .. }
        | Op::Store { .. }
        | Op::Probe { .. }
        | Op::JoinNl { .. }
        | Op::JoinMerge { .. }
        | Op::JoinHash { .. }
        | Op::Intersect => made.site,
    }
}

fn net_of(query: &Query, op: &Op, inputs: &Inputs<'_>) -> Num
    ensures { result ≡ net_of query.now op.now (vectors inputs.now) }
{
    match op {
        Op::Ship { site } => cap_add(net_at(query, *site), net_at(query, inputs.first_site())),
        Op::AccessHeap { .. }
        | Op::AccessIndex { .. }
        | Op::Get { .. }
        | Op::Filter { .. }
        | Op::Sort { .. }
        | Op::Store { .. }
        | Op::Probe { .. }
        | Op::JoinNl { .. }
        | Op::JoinMerge { .. }
        | Op::JoinHash { .. }
        | Op::Intersect => Num::cut(0),
    }
}

// The numbers of one input, 0 where there is none.
#[derive(Clone, Copy)]
struct InputNumbers {
    cost: Num,
    rescan: Num,
    card: Num,
}

fn numbers_of(input: Option<&Props>) -> InputNumbers
    ensures cost { result.cost ≡ (vector_in (option_copied input.entry)).cost }
    ensures rescan { result.rescan ≡ (vector_in (option_copied input.entry)).rescan }
    ensures card { result.card ≡ (vector_in (option_copied input.entry)).card }
{
    match input {
        None => InputNumbers {
            cost: Num::cut(0),
            rescan: Num::cut(0),
            card: Num::cut(0),
        },
        Some(v) => InputNumbers {
            cost: v.cost,
            rescan: v.rescan,
            card: v.card,
        },
    }
}

// The width of a row of the input, 0 where there is none.
#[tactic(auto, using(crate::proofs::NoInput::width_of_nothing))]
fn width_of(query: &Query, input: Option<&Props>) -> Num
    ensures { result ≡ width_of query.now (vector_in (option_copied input.entry)).cols }
{
    match input {
        None => Num::cut(0),
        Some(v) => width(query, &v.cols),
    }
}

// The width of a row of the result, which is that of the input's where the operator keeps its
// columns.
fn width_after(query: &Query, op: &Op, inputs: &Inputs<'_>, first: Num, cols: &ColSet) -> Num
    requires cols { cols.now ≡ cols_after query.now op.now (vectors inputs.now) }
    requires first { first ≡ width_of query.now (input_at 0 (vectors inputs.now)).cols }
    ensures { result ≡ width_of query.now cols.now }
{
    match (op, inputs) {
        (
            Op::Filter { .. }
            | Op::Sort { .. }
            | Op::Store { .. }
            | Op::Ship { .. }
            | Op::Probe { .. },
            Inputs::One(_),
        ) => first,
        _ => width(query, cols),
    }
}

/// The values of the variables, where the operator over these inputs makes a result of this vector,
/// but for the widths, which are 0.
pub fn vars_but_widths(query: &Query, op: &Op, inputs: &Inputs<'_>, made: &Props) -> Vars
    ensures { result ≡ without_widths (vars_of query.now op.now (vectors inputs.now) made.now) }
{
    let first = numbers_of(inputs.first());
    let second = numbers_of(inputs.second());
    Vars {
        cost1: first.cost,
        rescan1: first.rescan,
        card1: first.card,
        width1: Num::cut(0),
        cost2: second.cost,
        rescan2: second.rescan,
        card2: second.card,
        width2: Num::cut(0),
        card: made.card,
        width: Num::cut(0),
        rows: rows_read(query, op),
        pages: pages_read(query, op),
        preds: Num::cut(u64::from(applied(op).len())),
        cpu: cpu_at(query, works_at(op, inputs, made)),
        net: net_of(query, op, inputs),
        distinct1: Num::cut(0),
        rows1: Num::cut(0),
        distinct2: Num::cut(0),
        rows2: Num::cut(0),
    }
}

/// The values of the variables, where the operator over these inputs makes a result of this vector.
pub fn vars_of(query: &Query, op: &Op, inputs: &Inputs<'_>, made: &Props) -> Vars
    requires { made.now.cols ≡ cols_after query.now op.now (vectors inputs.now) }
    ensures { result ≡ vars_of query.now op.now (vectors inputs.now) made.now }
{
    let width1 = width_of(query, inputs.first());
    Vars {
        width1,
        width2: width_of(query, inputs.second()),
        width: width_after(query, op, inputs, width1, &made.cols),
        ..vars_but_widths(query, op, inputs, made)
    }
}
