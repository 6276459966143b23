// The walk over the nodes of a formula, in preorder.

ghost use Rattle.std.specs.Prelude.{◌≡◌, ◌+◌, ◌<◌, ◌^◌, ◌↔◌, true, Some, IfOk, IfErr, IsOk, length};
ghost use Rattle.star_model.specs.Monotone.{is_input_cost, is_free, passes, nodes, offends, first_offending};
ghost use Rattle.monotone_check.specs.Walk.{walked, entered};

use star_model::formula::{Formula, Var};

/// Why a formula doesn't pass.
#[derive(Clone, Copy, Debug, PartialEq, Eq)]
pub struct MonoFault {
    /// The number of the first node that offends, in preorder and from 1.
    pub node: u32,
}

fn is_input_cost(variable: Var) -> bool
    ensures { result ≡ is_input_cost variable }
{
    match variable {
        Var::Cost1 => true,
        Var::Rescan1 => true,
        Var::Cost2 => true,
        Var::Rescan2 => true,
        Var::Card1 => false,
        Var::Width1 => false,
        Var::Card2 => false,
        Var::Width2 => false,
        Var::Card => false,
        Var::Width => false,
        Var::Rows => false,
        Var::Pages => false,
        Var::Preds => false,
        Var::Cpu => false,
        Var::Net => false,
        Var::One => false,
        Var::Distinct1 => false,
        Var::Rows1 => false,
        Var::Distinct2 => false,
        Var::Rows2 => false,
    }
}

// Whether no cost of an input stands in the formula.
#[tactic(auto, using(star_model::specs::MonotoneEquations::is_free_cases))]
fn is_free(formula: &Formula) -> bool
    ensures { result ≡ is_free formula.now }
{
    match formula {
        Formula::Number(_) => true,
        Formula::Variable(variable) => !is_input_cost(*variable),
        Formula::Add(a, b) => is_free(a.get()) && is_free(b.get()),
        Formula::Sub(a, b) => is_free(a.get()) && is_free(b.get()),
        Formula::Mul(a, b) => is_free(a.get()) && is_free(b.get()),
        Formula::Div(a, b) => is_free(a.get()) && is_free(b.get()),
        Formula::Min(a, b) => is_free(a.get()) && is_free(b.get()),
        Formula::Max(a, b) => is_free(a.get()) && is_free(b.get()),
        Formula::If {
            test: _,
            x,
            y,
            yes,
            no,
        } => is_free(x.get()) && is_free(y.get()) && is_free(yes.get()) && is_free(no.get()),
    }
}

// Whether the node at the top offends.
#[tactic(auto, using(star_model::specs::MonotoneEquations::offends_cases))]
fn offends(formula: &Formula) -> bool
    ensures { result ≡ offends formula.now }
{
    match formula {
        Formula::Number(_) => false,
        Formula::Variable(_) => false,
        Formula::Add(_, _) => false,
        Formula::Sub(_, b) => !is_free(b.get()),
        Formula::Mul(_, _) => false,
        Formula::Div(_, b) => !is_free(b.get()),
        Formula::Min(_, _) => false,
        Formula::Max(_, _) => false,
        Formula::If {
            test: _,
            x,
            y,
            yes: _,
            no: _,
        } => !(is_free(x.get()) && is_free(y.get())),
    }
}

// The number of the node that so many stand before, or the fault of one that offends.
fn enter(before: u32, offence: bool) -> Result<u32, MonoFault>
    requires { before + 1 < 2 ^ 32 }
    ensures { result ≡ entered before offence }
{
    let node = before + 1;
    if offence {
        return Err(MonoFault { node });
    }
    Ok(node)
}

// How many nodes there are up to the end of a formula that so many stand before, or its first node
// that offends.
#[tactic(auto, using(crate::proofs::Walks::walks, star_model::specs::NodeCounts::node_counts))]
fn walk(formula: &Formula, before: u32) -> Result<u32, MonoFault>
    requires { before + length (nodes formula.now) < 2 ^ 32 }
    ensures walked { result ≡ walked before (nodes formula.now) }
    ensures count { IfOk result (λ count. count ≡ before + length (nodes formula.now)) }
{
    let before = enter(before, offends(formula))?;
    match formula {
        Formula::Number(_) | Formula::Variable(_) => Ok(before),
        Formula::Add(a, b)
        | Formula::Sub(a, b)
        | Formula::Mul(a, b)
        | Formula::Div(a, b)
        | Formula::Min(a, b)
        | Formula::Max(a, b) => {
            let before = walk(a.get(), before)?;
            walk(b.get(), before)
        }
        Formula::If {
            test: _,
            x,
            y,
            yes,
            no,
        } => {
            let before = walk(x.get(), before)?;
            let before = walk(y.get(), before)?;
            let before = walk(yes.get(), before)?;
            walk(no.get(), before)
        }
    }
}

/// The monotone check: Ok means nondecreasing. The value of a formula that passes doesn't fall
/// where no cost of an input falls. It takes no memory.
///
/// The recursion goes as deep as the formula nests.
#[tactic(auto, using(crate::proofs::Walks::checks))]
pub fn check(formula: &Formula) -> Result<(), MonoFault>
    requires { length (nodes formula.now) < 2 ^ 32 }
    ensures ok { IsOk result ↔ (passes formula.now ≡ true) }
    ensures fault { IfErr result (λ fault. first_offending formula.now ≡ Some fault.node) }
{
    walk(formula, 0)?;
    Ok(())
}
