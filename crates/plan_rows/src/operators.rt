// Operators as text, as `ACCESS_INDEX {1} emp_dno {2,3}` or `PROBE [e.dno,e.id] {}`.
ghost use Rattle.std.specs.Prelude.{◌<◌, IfSome};

use star_model::columns::{Col, ColList, Quant, Site};
use star_model::plans::Op;
use star_model::query::Query;
use star_model::sets::{PredSet, QuantSet};

// The member that has this number from 1.
fn member(number: &str) -> Option<u8>
    ensures { IfSome result (λ n. n < 32) }
{
    let number = number.parse::<u8>().ok()?;
    if 1 <= number && number <= 32 {
        Some(number - 1)
    } else {
        None
    }
}

/// The quantifiers of a text, as `{1,2}`.
pub fn quants(text: &str) -> Option<QuantSet> {
    let mut set = QuantSet::empty();
    if text != "{}" {
        for number in text.strip_prefix('{')?.strip_suffix('}')?.split(',') {
            set = set.union(QuantSet::single(member(number)?));
        }
    }
    Some(set)
}

/// The predicates of a text, as `{1,2}`.
pub fn preds(text: &str) -> Option<PredSet> {
    let mut set = PredSet::empty();
    if text != "{}" {
        for number in text.strip_prefix('{')?.strip_suffix('}')?.split(',') {
            set = set.union(PredSet::single(member(number)?));
        }
    }
    Some(set)
}

fn column(query: &Query, name: &str) -> Option<Col> {
    let (quant, column) = name.split_once('.')?;
    let quants = query.quants.as_slice();
    let quant = quants
        .iter()
        .position(|each| each.name.as_slice() == quant.as_bytes())?;
    let tables = query.catalogue.tables.as_slice();
    let table = tables.get(quants[quant].table as usize)?;
    let column = table
        .columns
        .as_slice()
        .iter()
        .position(|each| each.name.as_slice() == column.as_bytes())?;
    Some(Col {
        quant: Quant(u8::try_from(quant).ok()?),
        column: u8::try_from(column).ok()?,
    })
}

fn columns(query: &Query, text: &str) -> Option<ColList> {
    let mut list = ColList::new();
    if text != "[]" {
        for name in text.strip_prefix('[')?.strip_suffix(']')?.split(',') {
            list.try_push(column(query, name)?).ok()?;
        }
    }
    Some(list)
}

fn site(query: &Query, name: &str) -> Option<Site> {
    let sites = query.catalogue.sites.as_slice();
    let site = sites
        .iter()
        .position(|each| each.name.as_slice() == name.as_bytes())?;
    Some(Site(u8::try_from(site).ok()?))
}

fn index(query: &Query, name: &str) -> Option<u8> {
    let indexes = query.catalogue.indexes.as_slice();
    let index = indexes
        .iter()
        .position(|each| each.name.as_slice() == name.as_bytes())?;
    u8::try_from(index).ok()
}

// An operator that reads a table.
fn access(query: &Query, word: &str, first: &str, second: &str, third: &str) -> Option<Op> {
    match word.as_bytes() {
        b"ACCESS_HEAP" => Some(Op::AccessHeap {
            over: quants(first)?,
            preds: preds(second)?,
        }),
        b"ACCESS_INDEX" => Some(Op::AccessIndex {
            over: quants(first)?,
            index: index(query, second)?,
            preds: preds(third)?,
        }),
        b"GET" => Some(Op::Get {
            over: quants(first)?,
            preds: preds(second)?,
        }),
        _ => None,
    }
}

// An operator over one input that reads no table.
fn change(query: &Query, word: &str, first: &str, second: &str) -> Option<Op> {
    match word.as_bytes() {
        b"FILTER" => Some(Op::Filter {
            preds: preds(first)?,
        }),
        b"SORT" => Some(Op::Sort {
            cols: columns(query, first)?,
        }),
        b"STORE" => Some(Op::Store {
            cols: columns(query, first)?,
        }),
        b"SHIP" => Some(Op::Ship {
            site: site(query, first)?,
        }),
        b"PROBE" => Some(Op::Probe {
            cols: columns(query, first)?,
            preds: preds(second)?,
        }),
        _ => None,
    }
}

// An operator over two inputs.
fn over_two(word: &str, first: &str, second: &str) -> Option<Op> {
    match word.as_bytes() {
        b"JOIN_NL" => Some(Op::JoinNl {
            preds: preds(first)?,
        }),
        b"JOIN_MERGE" => Some(Op::JoinMerge {
            merge: preds(first)?,
            preds: preds(second)?,
        }),
        b"JOIN_HASH" => Some(Op::JoinHash {
            merge: preds(first)?,
            preds: preds(second)?,
        }),
        b"INTERSECT" => Some(Op::Intersect),
        _ => None,
    }
}

/// The operator that a text says.
pub fn operator(query: &Query, text: &str) -> Option<Op> {
    let mut words = text.split(' ');
    let word = words.next()?;
    let first = words.next().unwrap_or("");
    let second = words.next().unwrap_or("");
    let third = words.next().unwrap_or("");
    access(query, word, first, second, third)
        .or_else(|| change(query, word, first, second))
        .or_else(|| over_two(word, first, second))
}

/// How many inputs the operator has in a text.
pub fn input_count(op: &Op) -> usize {
    match op {
        Op::AccessHeap { .. } | Op::AccessIndex { .. } => 0,
        Op::Get { .. }
        | Op::Filter { .. }
        | Op::Sort { .. }
        | Op::Store { .. }
        | Op::Ship { .. }
        | Op::Probe { .. } => 1,
        Op::JoinNl { .. } | Op::JoinMerge { .. } | Op::JoinHash { .. } | Op::Intersect => 2,
    }
}
