// The refusals of a rule file, in their order: each over the whole file.
ghost use Rattle.std.specs.Prelude.{◌≤◌, length, IfOk};
ghost use Rattle.star_model.specs.Limits.{most_stars};
ghost use Rattle.star_model.specs.Accepted.{Unknown, Twice};
ghost use Rattle.star_model.specs.Every.{Every};
ghost use Rattle.star_model.specs.WellFormedRules.{WellFormedRules};
ghost use Rattle.star_check.specs.Checking.{IsFirstFault};
ghost use Rattle.star_check.specs.Offences.{HasFewNodes};
ghost use Rattle.star_check.specs.Owning.{NamesAreOwn, NamesAreKnown};
ghost use Rattle.star_check.specs.Passing.{NamesPass, ReferencesPass, FormulasPass, PassesOr};

use crate::arity::first_wrong_arity;
use crate::cycles::{first_glue_in_access, first_in_cycle};
use crate::heights::{first_too_tall, heights};
use crate::missing_formulas::missing_formula;
use crate::not_monotone::first_offence;
use crate::reach::reached;
use crate::roots::missing_root;
use crate::twice::first_twice;
use crate::unknown::first_unknown;
use crate::weights::{first_too_wide, weights};
use crate::wrong_kinds::first_wrong_kind;
use star_model::faults::RuleFault;
use star_model::rules::RuleFile;
use std::alloc::{AllocError, Global};

// The fault in how names are used, if there is one.
fn fault_of_names(alloc: Global, rules: &RuleFile) -> Result<Option<RuleFault>, AllocError>
    ensures { IfOk result (λ fault. PassesOr rules.now (NamesPass rules.now) fault) }
{
    if let Some(statement) = first_unknown(rules) {
        return Ok(Some(RuleFault::Unknown(statement)));
    }
    if let Some(statement) = first_twice(rules) {
        return Ok(Some(RuleFault::Twice(statement)));
    }
    if let Some(statement) = first_wrong_arity(rules) {
        return Ok(Some(RuleFault::Arity(statement)));
    }
    match first_wrong_kind(alloc, rules)? {
        Some(statement) => Ok(Some(RuleFault::Kind(statement))),
        None => Ok(None),
    }
}

// The fault in how STARs refer to one another, if there is one.
fn fault_of_references(alloc: Global, rules: &RuleFile) -> Result<Option<RuleFault>, AllocError>
    requires few { length rules.now.stars ≤ most_stars }
    requires names { NamesPass rules.now }
    requires own { NamesAreOwn rules.now }
    ensures { IfOk result (λ fault. PassesOr rules.now (ReferencesPass rules.now) fault) }
{
    let rows = reached(alloc, rules)?;
    if let Some(found) = first_in_cycle(rules, &rows) {
        return Ok(Some(RuleFault::Cycle(found.statement)));
    }
    match first_glue_in_access(rules, &rows) {
        Some(found) => Ok(Some(RuleFault::GlueInAccess(found.statement))),
        None => Ok(None),
    }
}

// The fault in the roots and the formulas, if there is one.
fn fault_of_formulas(rules: &RuleFile) -> Option<RuleFault>
    requires few { Every HasFewNodes rules.now.formulas }
    requires names { NamesPass rules.now }
    requires references { ReferencesPass rules.now }
    ensures { PassesOr rules.now (FormulasPass rules.now) result }
{
    if let Some(root) = missing_root(rules) {
        return Some(RuleFault::NoRoot(root));
    }
    if let Some(flavour) = missing_formula(rules) {
        return Some(RuleFault::NoFormula(flavour));
    }
    match first_offence(rules.formulas.as_slice()) {
        Some(found) => Some(RuleFault::NotMonotone(
            found.what.flavour,
            found.what.which,
            found.what.node,
        )),
        None => None,
    }
}

// The fault in the sizes of STARs, if there is one.
fn fault_of_sizes(alloc: Global, rules: &RuleFile) -> Result<Option<RuleFault>, AllocError>
    requires few { length rules.now.stars ≤ most_stars }
    requires names { NamesPass rules.now }
    requires references { ReferencesPass rules.now }
    requires formulas { FormulasPass rules.now }
    requires own { NamesAreOwn rules.now }
    requires known { NamesAreKnown rules.now }
    ensures { IfOk result (λ fault. IsFirstFault rules.now fault) }
{
    let heights = heights(alloc, rules)?;
    if let Some(found) = first_too_tall(rules, &heights) {
        return Ok(Some(RuleFault::TooTall(found.statement, found.what)));
    }
    let weights = weights(alloc, rules)?;
    match first_too_wide(rules, &weights) {
        Some(found) => Ok(Some(RuleFault::TooWide(found.statement, found.what))),
        None => Ok(None),
    }
}

/// The fault by which the file is refused, or none.
pub fn first_fault(alloc: Global, rules: &RuleFile) -> Result<Option<RuleFault>, AllocError>
    requires { WellFormedRules rules.now }
    ensures { IfOk result (λ fault. IsFirstFault rules.now fault) }
{
    if let Some(fault) = fault_of_names(alloc, rules)? {
        return Ok(Some(fault));
    }
    if let Some(fault) = fault_of_references(alloc, rules)? {
        return Ok(Some(fault));
    }
    if let Some(fault) = fault_of_formulas(rules) {
        return Ok(Some(fault));
    }
    fault_of_sizes(alloc, rules)
}
