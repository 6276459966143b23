// Whether values are equal.

ghost use Rattle.std.specs.Prelude.{◌≡◌, ◌&&◌};
ghost use Rattle.std.specs.Cmp.Lexicographic.{pointwise};
ghost use Rattle.star_model.specs.Vectors.{same_column};
ghost use Rattle.shared_sets.specs.Equality.{equal_require, equal_value};

use star_model::columns::ColList;
use star_model::plans::Require;
use star_model::values::{RuleValue, StreamValue};

fn is_same_list(list: &ColList, other: &ColList) -> bool
    ensures { result ≡ pointwise same_column list.now other.now }
{
    list.as_slice() == other.as_slice()
}

/// Whether the requirements are equal.
pub fn is_same_require(require: &Require, other: &Require) -> bool
    ensures { result ≡ equal_require require.now other.now }
{
    require.temp == other.temp
        && require.site == other.site
        && is_same_list(&require.order, &other.order)
        && is_same_list(&require.path, &other.path)
}

/// Whether the values are equal, those of streams too.
pub fn is_same_value(value: &RuleValue, other: &RuleValue) -> bool
    ensures { result ≡ equal_value value.now other.now }
{
    match (value, other) {
        (RuleValue::Stream(s), RuleValue::Stream(t)) => {
            s.tables == t.tables && is_same_require(&s.require, &t.require)
        }
        (RuleValue::Quants(s), RuleValue::Quants(t)) => s == t,
        (RuleValue::Preds(s), RuleValue::Preds(t)) => s == t,
        (RuleValue::Cols(c), RuleValue::Cols(d)) => is_same_list(c, d),
        (RuleValue::Site(s), RuleValue::Site(t)) => s.0 == t.0,
        (RuleValue::Index(n), RuleValue::Index(m)) => n == m,
        _ => false,
    }
}

/// Whether the lists have equal values.
pub fn are_same_values(values: &[RuleValue], others: &[RuleValue]) -> bool
    ensures { result ≡ pointwise equal_value values.now others.now }
{
    match (values, others) {
        ([], []) => true,
        ([value, more @ ..], [other, rest @ ..]) => {
            is_same_value(value, other) && are_same_values(more, rest)
        }
        _ => false,
    }
}
