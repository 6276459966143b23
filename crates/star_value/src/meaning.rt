// What expressions stand for.

ghost use Rattle.std.specs.Prelude.{◌≡◌, slice_index_or};
ghost use Rattle.star_model.specs.Meaning.{meaning, ordering};
ghost use Rattle.star_model.specs.WellFormed.{WellFormedQuery};
ghost use Rattle.star_model.specs.declared.values.RuleValue.TheVariants as is;

use crate::copies::copied;
use crate::env::Env;
use crate::predicates::{between, equalities, indexable};
use crate::readings::{cols_of, index_of, preds_of, quants_of, site_of, stream_of};
use crate::sets::{all_quants, meet_of, minus_of, union_of};
use crate::streams::{tables_of, with_order, with_path, with_site, with_temp};
use query_facts::{crossing, eligible, home, index_columns, keys, site_asked};
use star_model::columns::ColList;
use star_model::query::Query;
use star_model::rules::ValueExpr;
use star_model::sets::{PredSet, QuantSet};
use star_model::values::RuleValue;

fn bound(env: &Env, place: u8) -> RuleValue
    ensures { result ≡ slice_index_or env.now place (is.Quants 0) }
{
    env.as_slice()
        .get(place as usize)
        .map_or(RuleValue::Quants(QuantSet::empty()), copied)
}

/// What the expression stands for under these bindings. It takes no memory.
///
/// A value of another kind than its place asks is read as the empty one, and an unbound name as the
/// empty set of quantifiers. The recursion goes as deep as the expression nests.
#[tactic(auto, using(star_model::specs::MeaningEquations::meaning_cases))]
pub fn value(expr: &ValueExpr, env: &Env, query: &Query) -> RuleValue
    requires { WellFormedQuery query.now }
    ensures { result ≡ meaning query.now env.now expr.now }
{
    match expr {
        ValueExpr::Variable { name: _, place } => bound(env, *place),
        ValueExpr::WithOrder(t, c) => {
            let order = cols_of(value(c.get(), env, query));
            with_order(stream_of(value(t.get(), env, query)), order)
        }
        ValueExpr::WithSite(t, s) => {
            let site = site_of(&value(s.get(), env, query));
            with_site(stream_of(value(t.get(), env, query)), site)
        }
        ValueExpr::WithTemp(t) => with_temp(stream_of(value(t.get(), env, query))),
        ValueExpr::WithPath(t, c) => {
            let path = cols_of(value(c.get(), env, query));
            with_path(stream_of(value(t.get(), env, query)), path)
        }
        ValueExpr::Tables(t) => RuleValue::Quants(tables_of(t.get(), env)),
        ValueExpr::All => RuleValue::Quants(all_quants(query)),
        ValueExpr::NoPreds => RuleValue::Preds(PredSet::empty()),
        ValueExpr::Inside(s) => {
            RuleValue::Preds(eligible(query, quants_of(&value(s.get(), env, query))))
        }
        ValueExpr::Crossing(s) => {
            RuleValue::Preds(crossing(query, quants_of(&value(s.get(), env, query))))
        }
        ValueExpr::Between(s, t) => {
            let left = quants_of(&value(s.get(), env, query));
            let right = quants_of(&value(t.get(), env, query));
            RuleValue::Preds(between(query, left, right))
        }
        ValueExpr::Equalities(p) => {
            RuleValue::Preds(equalities(query, preds_of(&value(p.get(), env, query))))
        }
        ValueExpr::Indexable(t, x, p) => {
            let tables = tables_of(t.get(), env);
            let index = index_of(&value(x.get(), env, query));
            let preds = preds_of(&value(p.get(), env, query));
            RuleValue::Preds(indexable(query, tables, index, preds))
        }
        ValueExpr::NoCols => RuleValue::Cols(ColList::new()),
        ValueExpr::OrderBy => RuleValue::Cols(query.order.copied()),
        ValueExpr::Columns(t, x) => {
            let tables = tables_of(t.get(), env);
            let index = index_of(&value(x.get(), env, query));
            RuleValue::Cols(index_columns(query, tables, index))
        }
        ValueExpr::Keys(p, s) => {
            let preds = preds_of(&value(p.get(), env, query));
            let tables = quants_of(&value(s.get(), env, query));
            RuleValue::Cols(keys(query, preds, tables))
        }
        ValueExpr::Home(t) => RuleValue::Site(home(query, tables_of(t.get(), env))),
        ValueExpr::QuerySite => RuleValue::Site(site_asked(query)),
        ValueExpr::Union(v, w) => {
            union_of(&value(v.get(), env, query), &value(w.get(), env, query))
        }
        ValueExpr::Minus(v, w) => {
            minus_of(&value(v.get(), env, query), &value(w.get(), env, query))
        }
        ValueExpr::Meet(v, w) => meet_of(&value(v.get(), env, query), &value(w.get(), env, query)),
    }
}
