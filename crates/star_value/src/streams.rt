// Streams: their quantifiers; and with one more thing required, in place of what was required of
// the same property.

ghost use Rattle.std.specs.Prelude.{◌≡◌, true, Some, slice_index_or};
ghost use Rattle.star_model.specs.Meaning.{meaning, as_stream, requiring};
ghost use Rattle.star_model.specs.declared.query.Query.{Query};
ghost use Rattle.star_model.specs.declared.values.RuleValue.TheVariants as is;

use crate::env::Env;
use star_model::columns::{ColList, Site};
use star_model::rules::ValueExpr;
use star_model::sets::QuantSet;
use star_model::values::{RuleValue, StreamValue};

fn bound_tables(env: &Env, place: u8) -> QuantSet
    ensures { result ≡ (as_stream (slice_index_or env.now place (is.Quants 0))).tables }
{
    match env.as_slice().get(place as usize) {
        None => QuantSet::empty(),
        Some(RuleValue::Stream(stream)) => stream.tables,
        Some(_) => QuantSet::empty(),
    }
}

/// The quantifiers of the stream that the expression stands for. What is required of the stream is
/// neither evaluated nor copied.
#[tactic(auto, using(star_model::specs::MeaningEquations::meaning_cases))]
pub fn tables_of(expr: &ValueExpr, env: &Env) -> QuantSet
    ensures { (q : Query) → result ≡ (as_stream (meaning q env.now expr.now)).tables }
{
    match expr {
        ValueExpr::Variable { name: _, place } => bound_tables(env, *place),
        ValueExpr::WithTemp(t)
        | ValueExpr::WithOrder(t, _)
        | ValueExpr::WithSite(t, _)
        | ValueExpr::WithPath(t, _) => tables_of(t.get(), env),
        ValueExpr::Tables(_)
        | ValueExpr::All
        | ValueExpr::NoPreds
        | ValueExpr::Inside(_)
        | ValueExpr::Crossing(_)
        | ValueExpr::Between(_, _)
        | ValueExpr::Equalities(_)
        | ValueExpr::Indexable(_, _, _)
        | ValueExpr::NoCols
        | ValueExpr::OrderBy
        | ValueExpr::Columns(_, _)
        | ValueExpr::Keys(_, _)
        | ValueExpr::Home(_)
        | ValueExpr::QuerySite
        | ValueExpr::Union(_, _)
        | ValueExpr::Minus(_, _)
        | ValueExpr::Meet(_, _) => QuantSet::empty(),
    }
}

pub fn with_order(stream: StreamValue, order: ColList) -> RuleValue
    ensures { result ≡ requiring stream (record stream.require { order = order }) }
{
    let mut asked = stream;
    asked.require.order = order;
    RuleValue::Stream(asked)
}

pub fn with_site(stream: StreamValue, site: Site) -> RuleValue
    ensures { result ≡ requiring stream (record stream.require { site = Some site }) }
{
    let mut asked = stream;
    asked.require.site = Some(site);
    RuleValue::Stream(asked)
}

pub fn with_temp(stream: StreamValue) -> RuleValue
    ensures { result ≡ requiring stream (record stream.require { temp = true }) }
{
    let mut asked = stream;
    asked.require.temp = true;
    RuleValue::Stream(asked)
}

pub fn with_path(stream: StreamValue, path: ColList) -> RuleValue
    ensures { result ≡ requiring stream (record stream.require { path = path }) }
{
    let mut asked = stream;
    asked.require.path = path;
    RuleValue::Stream(asked)
}
