// The judgement of one text.
ghost use Rattle.std.specs.Prelude.{◌≡◌, ◌≤◌, length, Some};
ghost use Rattle.sb_text.specs.Limits.{most_text_bytes};
ghost use Rattle.star_model.specs.WellFormed.{WellFormedCatalogue};
ghost use Rattle.star_model.specs.WellFormedRules.{WellFormedRules};
ghost use Rattle.stars_core.specs.Lines.{rules_line, catalogue_line, query_line, derivation_line};
ghost use Rattle.stars_core.specs.Judging.{Refuses, SizeJudged, RulesRead, RulesChecked, JudgedRules, JudgedCatalogue, JudgedQuery, JudgedDerivation};

use crate::lines::{catalogue_line, derivation_line, query_line, too_long_line};
use crate::read::LIMIT;
use crate::rule_lines::rules_line;
use crate::{Refusal, TextKind};
use catalogue::{CatFault, read_catalogue};
use derivation_print::{DerivFault, read_derivation};
use query_graph::{QueryFault, read_query};
use star_check::{CheckedRules, check_rules};
use star_model::catalogue::Catalogue;
use star_model::derivations::Deriv;
use star_model::faults::RuleFault;
use star_model::query::Query;
use star_model::rules::RuleFile;
use star_syntax::read_rules;
use std::alloc::{AllocError, Global};

// Refuses a text that is longer than texts may be.
fn check_size(alloc: Global, kind: TextKind, bytes: &[u8]) -> Result<(), Refusal>
    ensures { SizeJudged kind bytes.now result }
{
    if bytes.len() > LIMIT {
        return Err(Refusal::Refused(kind, too_long_line(alloc, kind)?));
    }
    Ok(())
}

fn refused_rules(alloc: Global, fault: RuleFault) -> Refusal
    ensures { Refuses TextKind.Rules (λ line. rules_line fault ≡ Some line) result }
{
    match rules_line(alloc, fault) {
        Ok(line) => Refusal::Refused(TextKind::Rules, line),
        Err(AllocError) => Refusal::Memory,
    }
}

fn misread_catalogue(alloc: Global, fault: CatFault) -> Refusal
    ensures { Refuses TextKind.Catalogue (λ line. catalogue_line fault ≡ Some line) result }
{
    match catalogue_line(alloc, fault) {
        Ok(line) => Refusal::Refused(TextKind::Catalogue, line),
        Err(AllocError) => Refusal::Memory,
    }
}

fn misread_query(alloc: Global, fault: QueryFault) -> Refusal
    ensures { Refuses TextKind.Query (λ line. query_line fault ≡ Some line) result }
{
    match query_line(alloc, fault) {
        Ok(line) => Refusal::Refused(TextKind::Query, line),
        Err(AllocError) => Refusal::Memory,
    }
}

fn misread_derivation(alloc: Global, fault: DerivFault) -> Refusal
    ensures { Refuses TextKind.Derivation (λ line. derivation_line fault ≡ Some line) result }
{
    match derivation_line(alloc, fault) {
        Ok(line) => Refusal::Refused(TextKind::Derivation, line),
        Err(AllocError) => Refusal::Memory,
    }
}

// Reads a rule file that isn't too long.
fn read(alloc: Global, bytes: &[u8]) -> Result<RuleFile, Refusal>
    requires { length bytes.now ≤ most_text_bytes }
    ensures { RulesRead bytes.now result }
{
    match read_rules(alloc, bytes) {
        Ok(rules) => Ok(rules),
        Err(fault) => Err(refused_rules(alloc, fault)),
    }
}

// Checks the rules that a text spells.
fn check(alloc: Global, rules: RuleFile) -> Result<CheckedRules, Refusal>
    requires { WellFormedRules rules }
    ensures { RulesChecked rules result }
{
    match check_rules(alloc, rules) {
        Ok(rules) => Ok(rules),
        Err(fault) => Err(refused_rules(alloc, fault)),
    }
}

/// The rules that a text says, or its first fault. Rules that pass are accepted.
pub fn judge_rules(alloc: Global, bytes: &[u8]) -> Result<CheckedRules, Refusal>
    ensures { JudgedRules bytes.now result }
{
    check_size(alloc, TextKind::Rules, bytes)?;
    let rules = read(alloc, bytes)?;
    let rules = check(alloc, rules)?;
    Ok(rules)
}

/// The catalogue that a text says, or its first fault.
pub fn judge_catalogue(alloc: Global, bytes: &[u8]) -> Result<Catalogue, Refusal>
    ensures { JudgedCatalogue bytes.now result }
{
    check_size(alloc, TextKind::Catalogue, bytes)?;
    match read_catalogue(alloc, bytes) {
        Ok(catalogue) => Ok(catalogue),
        Err(fault) => Err(misread_catalogue(alloc, fault)),
    }
}

/// The query over a catalogue that a text says, or its first fault.
pub fn judge_query(alloc: Global, catalogue: &Catalogue, bytes: &[u8]) -> Result<Query, Refusal>
    requires { WellFormedCatalogue catalogue.now }
    ensures { JudgedQuery catalogue.now bytes.now result }
{
    check_size(alloc, TextKind::Query, bytes)?;
    match read_query(alloc, catalogue, bytes) {
        Ok(query) => Ok(query),
        Err(fault) => Err(misread_query(alloc, fault)),
    }
}

/// The derivation that a text says, or its first fault.
pub fn judge_derivation(alloc: Global, bytes: &[u8]) -> Result<Deriv, Refusal>
    ensures { JudgedDerivation bytes.now result }
{
    check_size(alloc, TextKind::Derivation, bytes)?;
    match read_derivation(alloc, bytes) {
        Ok(derivation) => Ok(derivation),
        Err(fault) => Err(misread_derivation(alloc, fault)),
    }
}
