// What an operator makes of each member of a set. A plan is made only where no member covers its
// vector.

ghost use Rattle.std.specs.Prelude.{◌≡◌, Some, IfOk, OnOk};
ghost use Rattle.star_model.specs.Operators.{flavour_of};
ghost use Rattle.star_model.specs.WellFormed.{WellFormedQuery};
ghost use Rattle.dominance_prune.specs.Gathering.{Gathers, From, IsFrontier};
ghost use Rattle.lolepop.specs.Derived.{is_better_plan, derived_leaf, derived_unary, derived_binary};

use crate::coverage::is_covered;
use dominance_prune::PlanSet;
use lolepop::{Entry, copied_op, step};
use star_model::costs::Costs;
use star_model::plans::Op;
use star_model::query::Query;
use std::alloc::{AllocError, Global};

/// The operator over nothing; no plan where it isn't applicable.
pub fn leaf_plans(
    alloc: Global,
    query: &Query,
    costs: &Costs,
    op: &Op,
) -> Result<PlanSet<Entry>, AllocError>
    requires { WellFormedQuery query.now }
    ensures { IfOk result (IsFrontier is_better_plan
        (λ x. derived_leaf query.now costs.now (flavour_of op.now) op.now ≡ Some x)) }
{
    let mut out = PlanSet::new(alloc);
    offer_leaf(alloc, query, costs, op, &mut out)?;
    out.apart();
    Ok(out)
}

/// The operator over each member; none where it isn't applicable.
pub fn unary_plans(
    alloc: Global,
    query: &Query,
    costs: &Costs,
    op: &Op,
    inputs: &PlanSet<Entry>,
) -> Result<PlanSet<Entry>, AllocError>
    requires { WellFormedQuery query.now }
    ensures { IfOk result (IsFrontier is_better_plan
        (From inputs.now (λ i x. derived_unary query.now costs.now (flavour_of op.now) op.now i
        ≡ Some x))) }
{
    let mut out = PlanSet::new(alloc);
    for input in inputs.iter() {
        offer_unary(alloc, query, costs, op, input, &mut out)?;
    }
    out.apart();
    Ok(out)
}

/// The operator over each two members, one of each set; none where it isn't applicable.
pub fn binary_plans(
    alloc: Global,
    query: &Query,
    costs: &Costs,
    op: &Op,
    lefts: &PlanSet<Entry>,
    rights: &PlanSet<Entry>,
) -> Result<PlanSet<Entry>, AllocError>
    requires { WellFormedQuery query.now }
    ensures { IfOk result (IsFrontier is_better_plan
        (From lefts.now (λ l. From rights.now
        (λ r x. derived_binary query.now costs.now (flavour_of op.now) op.now l r ≡ Some x)))) }
{
    let mut out = PlanSet::new(alloc);
    for left in lefts.iter() {
        offer_beside(alloc, query, costs, op, left, rights, &mut out)?;
    }
    out.apart();
    Ok(out)
}

// The operator over this member and each of the set's.
fn offer_beside(
    alloc: Global,
    query: &Query,
    costs: &Costs,
    op: &Op,
    left: &Entry,
    rights: &PlanSet<Entry>,
    out: &mut PlanSet<Entry>,
) -> Result<(), AllocError>
    requires { WellFormedQuery query.now }
    ensures { OnOk result (Gathers is_better_plan out.old out.new
        (From rights.now (λ r x. derived_binary query.now costs.now (flavour_of op.now) op.now
        left.now r ≡ Some x))) }
{
    for right in rights.iter() {
        offer_binary(alloc, query, costs, op, left, right, out)?;
    }
    Ok(())
}

fn offer_leaf(
    alloc: Global,
    query: &Query,
    costs: &Costs,
    op: &Op,
    out: &mut PlanSet<Entry>,
) -> Result<(), AllocError>
    requires { WellFormedQuery query.now }
    ensures { OnOk result (Gathers is_better_plan out.old out.new
        (λ x. derived_leaf query.now costs.now (flavour_of op.now) op.now ≡ Some x)) }
{
    let Some(props) = step(query, costs, op, &[]) else {
        return Ok(());
    };
    if is_covered(out, &props) {
        return Ok(());
    }
    let entry = Entry::at_leaf(alloc, copied_op(op), props)?;
    out.offer(entry)?;
    Ok(())
}

fn offer_unary(
    alloc: Global,
    query: &Query,
    costs: &Costs,
    op: &Op,
    input: &Entry,
    out: &mut PlanSet<Entry>,
) -> Result<(), AllocError>
    requires { WellFormedQuery query.now }
    ensures { OnOk result (Gathers is_better_plan out.old out.new
        (λ x. derived_unary query.now costs.now (flavour_of op.now) op.now input.now ≡ Some x)) }
{
    let Some(props) = input.vector_under(query, costs, op) else {
        return Ok(());
    };
    if is_covered(out, &props) {
        return Ok(());
    }
    let entry = input.under(alloc, copied_op(op), props)?;
    out.offer(entry)?;
    Ok(())
}

fn offer_binary(
    alloc: Global,
    query: &Query,
    costs: &Costs,
    op: &Op,
    left: &Entry,
    right: &Entry,
    out: &mut PlanSet<Entry>,
) -> Result<(), AllocError>
    requires { WellFormedQuery query.now }
    ensures { OnOk result (Gathers is_better_plan out.old out.new
        (λ x. derived_binary query.now costs.now (flavour_of op.now) op.now left.now right.now
        ≡ Some x)) }
{
    let Some(props) = left.vector_beside(query, costs, op, right) else {
        return Ok(());
    };
    if is_covered(out, &props) {
        return Ok(());
    }
    let entry = left.beside(alloc, copied_op(op), props, right)?;
    out.offer(entry)?;
    Ok(())
}
