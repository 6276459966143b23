// Plans of the operators of a text, with nodes that are shared.
ghost use Rattle.lolepop.specs.PlanTrees.{Fits};
ghost use Rattle.star_model.specs.WellFormed.{WellFormedQuery};
ghost use Rattle.std.specs.Prelude.{IfOk, IfSome};

use crate::operators::{input_count, operator};
use lolepop::{PlanNode, apply};
use star_model::costs::Costs;
use star_model::plans::Op;
use star_model::query::Query;
use std::alloc::{AllocError, Global};
use std::rc::Rc;

// No plan of a table is higher.
const HIGHEST: u8 = 32;

// The operators of a text, if each is understood.
fn operators(alloc: Global, query: &Query, text: &str) -> Result<Option<Vec<Op>>, AllocError> {
    let mut ops = Vec::new(alloc);
    for part in text.split("; ") {
        let Some(op) = operator(query, part) else {
            return Ok(None);
        };
        ops.push(op)?;
    }
    Ok(Some(ops))
}

// The plan whose operator is the last, and takes the operators of the plan; none where one isn't
// applicable.
fn planned(
    alloc: Global,
    query: &Query,
    costs: &Costs,
    ops: &mut Vec<Op>,
    height: u8,
) -> Result<Option<Rc<PlanNode>>, AllocError>
    requires { WellFormedQuery query.now }
    ensures { IfOk result (λ made. IfSome made (λ n. Fits query.now costs.now n.value)) }
{
    if height == 0 {
        return Ok(None);
    }
    let Some(op) = ops.pop() else {
        return Ok(None);
    };
    if input_count(&op) == 0 {
        return apply(alloc, query, costs, op, &[]);
    }
    let Some(last) = planned(alloc, query, costs, ops, height - 1)? else {
        return Ok(None);
    };
    if input_count(&op) == 1 {
        return apply(alloc, query, costs, op, &[last]);
    }
    let Some(first) = planned(alloc, query, costs, ops, height - 1)? else {
        return Ok(None);
    };
    apply(alloc, query, costs, op, &[first, last])
}

// Adds the numbers of a plan's nodes, of each behind those of its inputs.
fn push_numbers(
    told: &mut String,
    alloc: Global,
    node: &PlanNode,
    height: u8,
) -> Result<(), AllocError> {
    if height > 0 {
        for input in node.inputs() {
            push_numbers(told, alloc, input, height - 1)?;
        }
    }
    let vector = node.props();
    let mark = if told.is_empty() { "" } else { "; " };
    let (cost, rescan, card) = (vector.cost.get(), vector.rescan.get(), vector.card.get());
    told.push_str(format!(in alloc; "{mark}{cost} {rescan} {card}")?.as_str())
}

/// The numbers of the nodes of a text's plan, `COST RESCAN CARD` of each, in the order of the
/// operators.
pub fn told(alloc: Global, query: &Query, costs: &Costs, text: &str) -> Result<String, AllocError>
    requires { WellFormedQuery query.now }
{
    let Some(mut ops) = operators(alloc, query, text)? else {
        return String::from_str(alloc, "not understood");
    };
    let Some(node) = planned(alloc, query, costs, &mut ops, HIGHEST)? else {
        return String::from_str(alloc, "none");
    };
    if !ops.is_empty() {
        return String::from_str(alloc, "several plans");
    }
    let mut told = String::new(alloc);
    push_numbers(&mut told, alloc, &node, HIGHEST)?;
    Ok(told)
}
