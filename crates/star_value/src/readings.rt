// What stands in a value of the kind that a place asks for. A value of another kind is read as the
// empty one; in the alternatives of checked rules there is none.

ghost use Rattle.std.specs.Prelude.{◌≡◌};
ghost use Rattle.star_model.specs.Meaning.{as_stream, as_quants, as_preds, as_cols, as_site, as_index};

use star_model::columns::{ColList, Site};
use star_model::plans::Require;
use star_model::sets::{PredSet, QuantSet};
use star_model::values::{RuleValue, StreamValue};

pub fn stream_of(value: RuleValue) -> StreamValue
    ensures { result ≡ as_stream value }
{
    match value {
        RuleValue::Stream(stream) => stream,
        _ => StreamValue {
            tables: QuantSet::empty(),
            require: Require {
                order: ColList::new(),
                site: None,
                temp: false,
                path: ColList::new(),
            },
        },
    }
}

pub fn quants_of(value: &RuleValue) -> QuantSet
    ensures { result ≡ as_quants value.now }
{
    match value {
        RuleValue::Quants(quants) => *quants,
        _ => QuantSet::empty(),
    }
}

pub fn preds_of(value: &RuleValue) -> PredSet
    ensures { result ≡ as_preds value.now }
{
    match value {
        RuleValue::Preds(preds) => *preds,
        _ => PredSet::empty(),
    }
}

pub fn cols_of(value: RuleValue) -> ColList
    ensures { result ≡ as_cols value }
{
    match value {
        RuleValue::Cols(cols) => cols,
        _ => ColList::new(),
    }
}

pub fn site_of(value: &RuleValue) -> Site
    ensures { result ≡ as_site value.now }
{
    match value {
        RuleValue::Site(site) => *site,
        _ => Site(0),
    }
}

pub fn index_of(value: &RuleValue) -> u8
    ensures { result ≡ as_index value.now }
{
    match value {
        RuleValue::Index(index) => *index,
        _ => 0,
    }
}
