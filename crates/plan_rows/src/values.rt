// Values of the rule language as text, as `stream {1} order [e.id] site hq`.
use crate::names::{list_text, preds_text, push_part, quants_text, site_text};
use star_model::query::Query;
use star_model::values::{RuleValue, StreamValue};
use star_value::RangeIter;
use std::alloc::{AllocError, Global};

const MARK: &str = ", ";

fn stream_text(alloc: Global, query: &Query, stream: &StreamValue) -> Result<String, AllocError> {
    let require = &stream.require;
    let mut text = quants_text(alloc, stream.tables, MARK)?;
    text = format!(in alloc; "stream {{{text}}}")?;
    if require.order.len() > 0 {
        let order = list_text(alloc, query, require.order.as_slice(), MARK)?;
        text.push_str(format!(in alloc; " order [{order}]")?.as_str())?;
    }
    if let Some(at) = require.site {
        let at = site_text(alloc, query, at)?;
        text.push_str(format!(in alloc; " site {at}")?.as_str())?;
    }
    if require.temp {
        text.push_str(" temp")?;
    }
    if require.path.len() > 0 {
        let path = list_text(alloc, query, require.path.as_slice(), MARK)?;
        text.push_str(format!(in alloc; " path [{path}]")?.as_str())?;
    }
    Ok(text)
}

/// The text of a value for a query.
pub fn spoken(alloc: Global, query: &Query, value: &RuleValue) -> Result<String, AllocError> {
    match value {
        RuleValue::Stream(value) => stream_text(alloc, query, value),
        RuleValue::Quants(set) => {
            let set = quants_text(alloc, *set, MARK)?;
            format!(in alloc; "quants {{{set}}}")
        }
        RuleValue::Preds(set) => {
            let set = preds_text(alloc, *set, MARK)?;
            format!(in alloc; "preds {{{set}}}")
        }
        RuleValue::Cols(list) => {
            let list = list_text(alloc, query, list.as_slice(), MARK)?;
            format!(in alloc; "cols [{list}]")
        }
        RuleValue::Site(at) => {
            let at = site_text(alloc, query, *at)?;
            format!(in alloc; "site {at}")
        }
        RuleValue::Index(index) => format!(in alloc; "index {}", u32::from(*index) + 1),
    }
}

/// The texts of the members of a range for a query, with `; ` between, or `nothing`.
pub fn spoken_members(
    alloc: Global,
    query: &Query,
    members: RangeIter<'_>,
) -> Result<String, AllocError> {
    let mut text = String::new(alloc);
    for member in members {
        let member = spoken(alloc, query, &member)?;
        push_part(&mut text, "; ", member.as_str())?;
    }
    if text.is_empty() {
        text.push_str("nothing")?;
    }
    Ok(text)
}
