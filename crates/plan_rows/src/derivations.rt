// Plans that are made together with their derivations.
ghost use Rattle.star_model.specs.WellFormed.{WellFormedQuery};

use crate::operators::{input_count, operator, preds, quants};
use derivation_print::print_derivation;
use lolepop::{Entry, step};
use star_model::costs::Costs;
use star_model::derivations::ForAllValues;
use star_model::lists::Name;
use star_model::plans::{Chain, GlueOp, Goal, Op};
use star_model::query::Query;
use std::alloc::{AllocError, Global};

// The chain of these words.
fn chain_of(words: &str) -> Chain {
    let mut chain = Chain::new();
    for word in words.split(' ') {
        let _ = match word.as_bytes() {
            b"sort" => chain.try_push(GlueOp::Sort),
            b"ship" => chain.try_push(GlueOp::Ship),
            _ => chain.try_push(GlueOp::Store),
        };
    }
    chain
}

// The operator over nothing; none where it isn't applicable.
fn leaf(alloc: Global, query: &Query, costs: &Costs, op: Op) -> Result<Option<Entry>, AllocError>
    requires { WellFormedQuery query.now }
{
    match step(query, costs, &op, &[]) {
        Some(props) => Ok(Some(Entry::at_leaf(alloc, op, props)?)),
        None => Ok(None),
    }
}

// The operator over an entry, as an operator of Glue or as a node of the derivation; none where it
// isn't applicable.
fn over(
    alloc: Global,
    query: &Query,
    costs: &Costs,
    op: Op,
    entry: &Entry,
    of_glue: bool,
) -> Result<Option<Entry>, AllocError>
    requires { WellFormedQuery query.now }
{
    let Some(props) = entry.vector_under(query, costs, &op) else {
        return Ok(None);
    };
    if of_glue {
        return Ok(Some(entry.enforced(alloc, op, props)?));
    }
    Ok(Some(entry.under(alloc, op, props)?))
}

// The operator over two entries; none where it isn't applicable.
fn beside(
    alloc: Global,
    query: &Query,
    costs: &Costs,
    op: Op,
    left: &Entry,
    right: &Entry,
) -> Result<Option<Entry>, AllocError>
    requires { WellFormedQuery query.now }
{
    match left.vector_beside(query, costs, &op, right) {
        Some(props) => Ok(Some(left.beside(alloc, op, props, right)?)),
        None => Ok(None),
    }
}

// The operator of a text over the last entries, which are taken; none where it isn't applicable.
fn operated(
    alloc: Global,
    query: &Query,
    costs: &Costs,
    made: &mut Vec<Entry>,
    text: &str,
) -> Result<Option<Entry>, AllocError>
    requires { WellFormedQuery query.now }
{
    let Some(op) = operator(query, text) else {
        return Ok(None);
    };
    let count = input_count(&op);
    if count == 0 {
        return leaf(alloc, query, costs, op);
    }
    let Some(last) = made.pop() else {
        return Ok(None);
    };
    if count == 1 {
        return over(alloc, query, costs, op, &last, false);
    }
    match made.pop() {
        Some(first) => beside(alloc, query, costs, op, &first, &last),
        None => Ok(None),
    }
}

// The entry, derived through a reference: the name of the STAR, the number of the alternative, and
// the for-all values.
fn referred(alloc: Global, entry: &Entry, text: &str) -> Result<Entry, AllocError> {
    let mut words = text.split(' ');
    let star = Name::from_slice(alloc, words.next().unwrap_or("").as_bytes())?;
    let alternative = words.next().unwrap_or("").parse().unwrap_or(0);
    let mut values = ForAllValues::new();
    for word in words {
        let _ = values.try_push(word.parse().unwrap_or(0));
    }
    entry.referred(alloc, star, alternative, values)
}

// The entry, derived for a goal: its quantifiers, its predicates, and the two parts of its split if
// it has one.
fn reached(alloc: Global, entry: &Entry, text: &str) -> Result<Option<Entry>, AllocError> {
    let mut words = text.split(' ');
    let Some(tables) = quants(words.next().unwrap_or("")) else {
        return Ok(None);
    };
    let Some(pushed) = preds(words.next().unwrap_or("")) else {
        return Ok(None);
    };
    let left = quants(words.next().unwrap_or(""));
    let right = quants(words.next().unwrap_or(""));
    let split = match (left, right) {
        (Some(left), Some(right)) => Some((left, right)),
        _ => None,
    };
    let goal = Goal { tables, pushed };
    Ok(Some(entry.reached(alloc, goal, split)?))
}

// The last entry, which is taken, after a step of its derivation; none where the step isn't
// understood or applicable.
fn derived(
    alloc: Global,
    query: &Query,
    costs: &Costs,
    made: &mut Vec<Entry>,
    word: &str,
    rest: &str,
) -> Result<Option<Entry>, AllocError>
    requires { WellFormedQuery query.now }
{
    let Some(entry) = made.pop() else {
        return Ok(None);
    };
    match word.as_bytes() {
        b"ref" => Ok(Some(referred(alloc, &entry, rest)?)),
        b"goal" => reached(alloc, &entry, rest),
        b"glue" => Ok(Some(entry.glued(alloc, chain_of(rest))?)),
        _ => match operator(query, rest) {
            Some(op) => over(alloc, query, costs, op, &entry, true),
            None => Ok(None),
        },
    }
}

// Puts what a step makes in the place of what it takes: an operator, or `ref`, `goal`, `glue`, or
// `with` and an operator of Glue. Whether it is understood and applicable.
fn take_step(
    alloc: Global,
    query: &Query,
    costs: &Costs,
    made: &mut Vec<Entry>,
    text: &str,
) -> Result<bool, AllocError>
    requires { WellFormedQuery query.now }
{
    let (word, rest) = text.split_once(' ').unwrap_or((text, ""));
    let is_step = matches!(word.as_bytes(), b"ref" | b"goal" | b"glue" | b"with");
    let next = if is_step {
        derived(alloc, query, costs, made, word, rest)?
    } else {
        operated(alloc, query, costs, made, text)?
    };
    match next {
        Some(entry) => {
            made.push(entry)?;
            Ok(true)
        }
        None => Ok(false),
    }
}

// The cost of an entry's plan and its derivation.
fn entry_told(alloc: Global, entry: &Entry) -> Result<String, AllocError> {
    let cost = entry.node.props().cost.get();
    let derivation = entry.trace.unshare(alloc)?;
    let text = print_derivation(alloc, &derivation)?;
    let text = String::from_utf8_lossy(alloc, text.as_slice())?;
    format!(in alloc; "# cost {cost}\n{text}")
}

/// The cost of the plan that the steps of a text make, and its derivation.
pub fn told(alloc: Global, query: &Query, costs: &Costs, text: &str) -> Result<String, AllocError>
    requires { WellFormedQuery query.now }
{
    let mut made = Vec::new(alloc);
    for step in text.split("; ") {
        if !take_step(alloc, query, costs, &mut made, step)? {
            return String::from_str(alloc, "none");
        }
    }
    match made.as_slice() {
        [entry] => entry_told(alloc, entry),
        _ => String::from_str(alloc, "several plans"),
    }
}
