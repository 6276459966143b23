// Copies of values. They take no memory.

ghost use Rattle.std.specs.Prelude.{◌≡◌};

use star_model::plans::Require;
use star_model::values::{RuleValue, StreamValue};

fn copied_require(require: &Require) -> Require
    ensures { result ≡ require.now }
{
    Require {
        order: require.order.copied(),
        site: require.site,
        temp: require.temp,
        path: require.path.copied(),
    }
}

/// An equal value.
pub fn copied(value: &RuleValue) -> RuleValue
    ensures { result ≡ value.now }
{
    match value {
        RuleValue::Stream(stream) => RuleValue::Stream(StreamValue {
            tables: stream.tables,
            require: copied_require(&stream.require),
        }),
        RuleValue::Quants(quants) => RuleValue::Quants(*quants),
        RuleValue::Preds(preds) => RuleValue::Preds(*preds),
        RuleValue::Cols(cols) => RuleValue::Cols(cols.copied()),
        RuleValue::Site(site) => RuleValue::Site(*site),
        RuleValue::Index(index) => RuleValue::Index(*index),
    }
}
