// The lines that tell the faults of a rule file.
ghost use Rattle.std.specs.Prelude.{◌≡◌, IfOk, Some, string_bytes};
ghost use Rattle.stars_core.specs.Lines.{arity_line, kind_line, cycle_line, glue_line, no_root_line, no_formula_line, not_monotone_line, too_tall_line, too_wide_line, rules_line, root_word};

use crate::TextKind;
use crate::lines::{lexical_line, limit_line, statement_line, twice_line, unknown_line};
use star_model::faults::{Root, RuleFault};
use star_model::flavours::{flavour_word, which_word};
use star_model::num::Num;
use star_model::rules::{Flavour, Which};
use std::alloc::{AllocError, Global};

// The name of a root STAR.
fn root_word(root: Root) -> &'static str
    ensures { result.now ≡ root_word root }
{
    match root {
        Root::AccessRoot => "AccessRoot",
        Root::JoinRoot => "JoinRoot",
    }
}

fn arity_line(alloc: Global, statement: u32) -> Result<String, AllocError>
    ensures { IfOk result (λ line. string_bytes line ≡ arity_line statement) }
{
    format!(in alloc; "rules: wrong number of arguments in statement {statement}\n")
}

fn kind_line(alloc: Global, statement: u32) -> Result<String, AllocError>
    ensures { IfOk result (λ line. string_bytes line ≡ kind_line statement) }
{
    format!(in alloc; "rules: wrong kind in statement {statement}\n")
}

fn cycle_line(alloc: Global, statement: u32) -> Result<String, AllocError>
    ensures { IfOk result (λ line. string_bytes line ≡ cycle_line statement) }
{
    format!(in alloc; "rules: cycle through statement {statement}\n")
}

fn glue_line(alloc: Global, statement: u32) -> Result<String, AllocError>
    ensures { IfOk result (λ line. string_bytes line ≡ glue_line statement) }
{
    format!(in alloc; "rules: Glue below AccessRoot in statement {statement}\n")
}

fn no_root_line(alloc: Global, root: Root) -> Result<String, AllocError>
    ensures { IfOk result (λ line. string_bytes line ≡ no_root_line root) }
{
    let root = root_word(root);
    format!(in alloc; "rules: no star {root}\n")
}

fn no_formula_line(alloc: Global, flavour: Flavour) -> Result<String, AllocError>
    ensures { IfOk result (λ line. string_bytes line ≡ no_formula_line flavour) }
{
    let flavour = flavour_word(flavour);
    format!(in alloc; "rules: no formula for {flavour}\n")
}

fn not_monotone_line(
    alloc: Global,
    flavour: Flavour,
    which: Which,
    node: u32,
) -> Result<String, AllocError>
    ensures { IfOk result (λ line. string_bytes line ≡ not_monotone_line flavour which node) }
{
    let which = which_word(which);
    let flavour = flavour_word(flavour);
    format!(in alloc; "rules: {which} of {flavour} is not monotone at node {node}\n")
}

fn too_tall_line(alloc: Global, statement: u32, height: u32) -> Result<String, AllocError>
    ensures { IfOk result (λ line. string_bytes line ≡ too_tall_line statement height) }
{
    let said = format!(in alloc; "has height {height}")?;
    statement_line(alloc, TextKind::Rules, statement, said.as_str())
}

fn too_wide_line(alloc: Global, statement: u32, weight: Num) -> Result<String, AllocError>
    ensures { IfOk result (λ line. string_bytes line ≡ too_wide_line statement weight) }
{
    let weight = weight.get();
    let said = format!(in alloc; "has weight {weight}")?;
    statement_line(alloc, TextKind::Rules, statement, said.as_str())
}

/// The line of a fault of a rule file. Want of memory is told as itself.
pub fn rules_line(alloc: Global, fault: RuleFault) -> Result<String, AllocError>
    ensures { IfOk result (λ line. rules_line fault ≡ Some (string_bytes line)) }
{
    let kind = TextKind::Rules;
    match fault {
        RuleFault::Lexical(offset) => lexical_line(alloc, kind, offset),
        RuleFault::TooDeep(statement) => statement_line(alloc, kind, statement, "is too deep"),
        RuleFault::Syntax(statement) => statement_line(alloc, kind, statement, "is not understood"),
        RuleFault::Limit(statement, what) => limit_line(alloc, kind, statement, what),
        RuleFault::Unknown(statement) => unknown_line(alloc, kind, statement),
        RuleFault::Twice(statement) => twice_line(alloc, kind, statement),
        RuleFault::Arity(statement) => arity_line(alloc, statement),
        RuleFault::Kind(statement) => kind_line(alloc, statement),
        RuleFault::Cycle(statement) => cycle_line(alloc, statement),
        RuleFault::GlueInAccess(statement) => glue_line(alloc, statement),
        RuleFault::NoRoot(root) => no_root_line(alloc, root),
        RuleFault::NoFormula(flavour) => no_formula_line(alloc, flavour),
        RuleFault::NotMonotone(flavour, which, node) => {
            not_monotone_line(alloc, flavour, which, node)
        }
        RuleFault::TooTall(statement, height) => too_tall_line(alloc, statement, height),
        RuleFault::TooWide(statement, weight) => too_wide_line(alloc, statement, weight),
        RuleFault::Memory => Err(AllocError),
    }
}
