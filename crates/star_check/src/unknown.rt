// STARs and names that are used and not defined.
ghost use Rattle.std.specs.Prelude.{◌≡◌, is_none, []};
ghost use Rattle.std.specs.List.{list_any};
ghost use Rattle.std.specs.Option.{option_map_or};
ghost use Rattle.star_model.specs.Stars.{star_named};
ghost use Rattle.star_model.specs.Accepted.{references_in, values_in, values_of_condition, values_of_range, values_of_alternative, is_unknown};
ghost use Rattle.star_check.specs.FirstStatements.{first_star};
ghost use Rattle.star_check.specs.Strange.{is_strange};

use crate::names::star_named;
use star_model::rules::{
    Alternative, Condition, ForAll, PlanExpr, Range, RuleFile, StarDef, ValueExpr,
};

// Whether the body refers to a STAR that isn't defined.
#[tactic(auto, using(crate::proofs::Walks::walks, star_model::specs::AcceptedEquations::references_in_cases))]
fn refers_unknown(rules: &RuleFile, plan: &PlanExpr) -> bool
    ensures { result ≡ list_any (λ r. is_none (star_named rules.now r.0)) (references_in plan.now) }
{
    match plan {
        PlanExpr::Reference { star, args: _ } => star_named(rules, star).is_none(),
        PlanExpr::Glue {
            stream: _,
            preds: _,
        } => false,
        PlanExpr::Leaf {
            flavour: _,
            args: _,
        } => false,
        PlanExpr::Unary {
            flavour: _,
            args: _,
            input,
        } => refers_unknown(rules, input.get()),
        PlanExpr::Binary {
            flavour: _,
            args: _,
            left,
            right,
        } => refers_unknown(rules, left.get()) || refers_unknown(rules, right.get()),
    }
}

fn refer_unknown(rules: &RuleFile, alternatives: &[Alternative]) -> bool
    ensures { result ≡ list_any (λ a. list_any (λ r. is_none (star_named rules.now r.0))
        (references_in a.body)) alternatives.now }
{
    alternatives
        .iter()
        .any(|alternative| refers_unknown(rules, &alternative.body))
}

// Whether a variable of the value has no place.
#[tactic(auto, using(crate::proofs::Walks::walks, star_model::specs::AcceptedEquations::variables_in_cases))]
fn is_strange(value: &ValueExpr) -> bool
    ensures { result ≡ is_strange value.now }
{
    match value {
        ValueExpr::Variable { name: _, place } => *place == 255,
        ValueExpr::WithTemp(v)
        | ValueExpr::Tables(v)
        | ValueExpr::Inside(v)
        | ValueExpr::Crossing(v)
        | ValueExpr::Equalities(v)
        | ValueExpr::Home(v) => is_strange(v.get()),
        ValueExpr::WithOrder(v, w)
        | ValueExpr::WithSite(v, w)
        | ValueExpr::WithPath(v, w)
        | ValueExpr::Between(v, w)
        | ValueExpr::Columns(v, w)
        | ValueExpr::Keys(v, w)
        | ValueExpr::Union(v, w)
        | ValueExpr::Minus(v, w)
        | ValueExpr::Meet(v, w) => is_strange(v.get()) || is_strange(w.get()),
        ValueExpr::Indexable(t, x, p) => {
            is_strange(t.get()) || is_strange(x.get()) || is_strange(p.get())
        }
        ValueExpr::All
        | ValueExpr::NoPreds
        | ValueExpr::NoCols
        | ValueExpr::OrderBy
        | ValueExpr::QuerySite => false,
    }
}

fn are_strange(values: &[ValueExpr]) -> bool
    ensures { result ≡ list_any is_strange values.now }
{
    values.iter().any(is_strange)
}

#[tactic(auto, using(crate::proofs::Walks::walks, star_model::specs::AcceptedEquations::values_in_cases))]
fn plan_is_strange(plan: &PlanExpr) -> bool
    ensures { result ≡ list_any is_strange (values_in plan.now) }
{
    match plan {
        PlanExpr::Reference { star: _, args } => are_strange(args.as_slice()),
        PlanExpr::Glue { stream, preds } => is_strange(stream) || is_strange(preds),
        PlanExpr::Leaf { flavour: _, args } => are_strange(args.as_slice()),
        PlanExpr::Unary {
            flavour: _,
            args,
            input,
        } => are_strange(args.as_slice()) || plan_is_strange(input.get()),
        PlanExpr::Binary {
            flavour: _,
            args,
            left,
            right,
        } => {
            are_strange(args.as_slice())
                || plan_is_strange(left.get())
                || plan_is_strange(right.get())
        }
    }
}

#[tactic(auto, using(crate::proofs::Walks::walks, star_model::specs::AcceptedEquations::values_of_condition_cases))]
fn condition_is_strange(condition: &Condition) -> bool
    ensures { result ≡ list_any is_strange (values_of_condition condition.now) }
{
    match condition {
        Condition::Empty(v) | Condition::Single(v) => is_strange(v),
        Condition::Same(v, w) | Condition::Within(v, w) | Condition::Begins(v, w) => {
            is_strange(v) || is_strange(w)
        }
        Condition::Not(c) => condition_is_strange(c.get()),
        Condition::And(c, d) | Condition::Or(c, d) => {
            condition_is_strange(c.get()) || condition_is_strange(d.get())
        }
    }
}

fn condition_is_strange_if_any(condition: &Option<Condition>) -> bool
    ensures { result ≡ list_any is_strange (option_map_or values_of_condition condition.now []) }
{
    match condition {
        None => false,
        Some(condition) => condition_is_strange(condition),
    }
}

fn range_is_strange(range: &Range) -> bool
    ensures { result ≡ list_any is_strange (values_of_range range.now) }
{
    match range {
        Range::Indexes(v) | Range::Members(v) | Range::Each(v) => is_strange(v),
        Range::Sites => false,
    }
}

fn ranges_are_strange(ranges: &[ForAll]) -> bool
    ensures { result ≡ list_any (λ f. list_any is_strange (values_of_range f.range)) ranges.now }
{
    ranges.iter().any(|each| range_is_strange(&each.range))
}

#[tactic(auto, using(crate::proofs::Walks::any_of_alternative))]
fn alternative_is_strange(alternative: &Alternative) -> bool
    ensures { result ≡ list_any is_strange (values_of_alternative alternative.now) }
{
    ranges_are_strange(alternative.ranges.as_slice())
        || condition_is_strange_if_any(&alternative.condition)
        || plan_is_strange(&alternative.body)
}

fn alternatives_are_strange(alternatives: &[Alternative]) -> bool
    ensures { result ≡ list_any (λ a. list_any is_strange (values_of_alternative a))
        alternatives.now }
{
    alternatives.iter().any(alternative_is_strange)
}

#[tactic(auto, using(crate::proofs::Walks::any_in_bodies, crate::proofs::Walks::any_variable))]
fn is_unknown(rules: &RuleFile, star: &StarDef) -> bool
    ensures { result ≡ is_unknown rules.now star.now }
{
    let alternatives = star.alternatives.as_slice();
    refer_unknown(rules, alternatives) || alternatives_are_strange(alternatives)
}

/// The first statement that uses what isn't defined.
pub fn first_unknown(rules: &RuleFile) -> Option<u32>
    ensures { result ≡ first_star (is_unknown rules.now) rules.now.stars }
{
    rules
        .stars
        .as_slice()
        .iter()
        .filter(|star| is_unknown(rules, star))
        .map(|star| star.statement)
        .min()
}
