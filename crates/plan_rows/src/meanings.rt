// What expressions of the rule language mean for a query, as text.
ghost use Rattle.star_model.specs.WellFormed.{WellFormedQuery};

use crate::texts::LONGEST;
use crate::values::{spoken, spoken_members};
use star_model::columns::{Col, ColList, Quant, Site};
use star_model::plans::Require;
use star_model::query::Query;
use star_model::rules::{Alternative, PlanExpr, RuleFile};
use star_model::sets::{PredSet, QuantSet};
use star_model::values::{RuleValue, StreamValue};
use star_syntax::read_rules;
use star_value::{Env, holds, range, value};
use std::alloc::{AllocError, Global};

// What the parameters are bound to is below.
const HEAD: &str =
    "star S(D stream, E stream, B stream, x index, y index, p preds, c cols, n cols) = ";

// These columns of the second quantifier.
fn columns(numbers: &[u8]) -> ColList {
    let mut columns = ColList::new();
    for column in numbers {
        let _ = columns.try_push(Col {
            quant: Quant(1),
            column: *column,
        });
    }
    columns
}

// A stream of which nothing is required.
fn stream(tables: QuantSet) -> RuleValue {
    RuleValue::Stream(StreamValue {
        tables,
        require: Require {
            order: ColList::new(),
            site: None,
            temp: false,
            path: ColList::new(),
        },
    })
}

// The stream of the second quantifier, of which everything is required.
fn required_stream() -> RuleValue {
    RuleValue::Stream(StreamValue {
        tables: QuantSet::single(1),
        require: Require {
            order: columns(&[2]),
            site: Some(Site(0)),
            temp: true,
            path: columns(&[1, 0]),
        },
    })
}

// `D` is the stream of the first quantifier, `E` that of the second, with everything required, and
// `B` that of both; `x` and `y` are the first two indexes; `p` has the predicates 1, 2 and 5, `c`
// the second and the first column of the second quantifier, and `n` none.
fn bindings() -> Env {
    let first = QuantSet::single(0);
    let preds = PredSet::single(0)
        .union(PredSet::single(1))
        .union(PredSet::single(4));
    let mut env = Env::new();
    let _ = env.try_push(stream(first));
    let _ = env.try_push(required_stream());
    let _ = env.try_push(stream(first.union(QuantSet::single(1))));
    let _ = env.try_push(RuleValue::Index(0));
    let _ = env.try_push(RuleValue::Index(1));
    let _ = env.try_push(RuleValue::Preds(preds));
    let _ = env.try_push(RuleValue::Cols(columns(&[1, 0])));
    let _ = env.try_push(RuleValue::Cols(ColList::new()));
    env
}

// The value of the first argument of a reference.
fn meaning_of_argument(alloc: Global, body: &PlanExpr, query: &Query) -> Result<String, AllocError>
    requires { WellFormedQuery query.now }
{
    let PlanExpr::Reference { star: _, args } = body else {
        return String::from_str(alloc, "no reference");
    };
    match args.as_slice().first() {
        Some(argument) => {
            let value = value(argument, &bindings(), query);
            spoken(alloc, query, &value)
        }
        None => String::from_str(alloc, "no argument"),
    }
}

// The members of the first range; or else whether the condition holds; or else the value of the
// first argument.
fn meaning_of(alloc: Global, alternative: &Alternative, query: &Query) -> Result<String, AllocError>
    requires { WellFormedQuery query.now }
{
    let env = bindings();
    if let Some(clause) = alternative.ranges.as_slice().first() {
        return spoken_members(alloc, query, range(&clause.range, &env, query));
    }
    match &alternative.condition {
        Some(condition) => {
            let holds = holds(condition, &env, query);
            format!(in alloc; "{holds}")
        }
        None => meaning_of_argument(alloc, &alternative.body, query),
    }
}

fn first_alternative(rules: &RuleFile) -> Option<&Alternative> {
    let star = rules.stars.as_slice().first()?;
    star.alternatives.as_slice().first()
}

/// The meaning of what an alternative has, or its fault.
pub fn told(alloc: Global, query: &Query, alternative: &str) -> Result<String, AllocError>
    requires { WellFormedQuery query.now }
{
    let text = format!(in alloc; "{HEAD}{alternative}")?;
    if text.len() > LONGEST {
        return Err(AllocError);
    }
    let rules = match read_rules(alloc, text.as_bytes()) {
        Ok(rules) => rules,
        Err(fault) => return format!(in alloc; "{fault:?}"),
    };
    match first_alternative(&rules) {
        Some(alternative) => meaning_of(alloc, alternative, query),
        None => String::from_str(alloc, "no alternative"),
    }
}
