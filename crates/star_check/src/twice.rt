// What is defined twice: STARs, formulas, selectivities, parameters and for-all names.
ghost use Rattle.std.specs.Prelude.{◌≡◌, nat_lt, ◌&&◌, ◌||◌};
ghost use Rattle.std.specs.List.{list_any};
ghost use Rattle.star_model.specs.Vectors.{same_numbers};
ghost use Rattle.star_model.specs.Costs.{same_flavour, same_which};
ghost use Rattle.star_model.specs.Selectivity.{same_class};
ghost use Rattle.star_model.specs.Accepted.{is_star_twice, is_formula_twice, is_select_twice};
ghost use Rattle.star_check.specs.FirstStatements.{first_star, first_formula, first_select, first_twice};
ghost use Rattle.star_check.specs.Repeated.{recurs, ranges_repeat};

use crate::first::earlier_of;
use crate::names::same_name;
use star_model::lists::Name;
use star_model::rules::{Alternative, ForAll, FormulaDef, Param, RuleFile, SelectDef, StarDef};

fn is_parameter(params: &[Param], name: &Name) -> bool
    ensures { result ≡ list_any (λ p. same_numbers name.now p.name) params.now }
{
    params.iter().any(|param| same_name(name, &param.name))
}

fn is_range(ranges: &[ForAll], name: &Name) -> bool
    ensures { result ≡ list_any (λ f. same_numbers name.now f.name) ranges.now }
{
    ranges.iter().any(|each| same_name(name, &each.name))
}

// Whether a parameter has the name of a later one.
fn parameters_recur(params: &[Param]) -> bool
    ensures { result ≡ recurs (λ p. p.name) params.now }
{
    match params {
        [] => false,
        [param, later @ ..] => is_parameter(later, &param.name) || parameters_recur(later),
    }
}

// Whether a for-all name is that of a later one.
fn ranges_recur(ranges: &[ForAll]) -> bool
    ensures { result ≡ recurs (λ f. f.name) ranges.now }
{
    match ranges {
        [] => false,
        [each, later @ ..] => is_range(later, &each.name) || ranges_recur(later),
    }
}

fn ranges_are_parameters(params: &[Param], ranges: &[ForAll]) -> bool
    ensures { result ≡ list_any (λ f. list_any (λ p. same_numbers f.name p.name) params.now)
        ranges.now }
{
    ranges.iter().any(|each| is_parameter(params, &each.name))
}

fn ranges_repeat(params: &[Param], ranges: &[ForAll]) -> bool
    ensures { result ≡ ranges_repeat params.now ranges.now }
{
    ranges_are_parameters(params, ranges) || ranges_recur(ranges)
}

fn some_ranges_repeat(params: &[Param], alternatives: &[Alternative]) -> bool
    ensures { result ≡ list_any (λ a. ranges_repeat params.now a.ranges) alternatives.now }
{
    alternatives.iter().any(|alternative| ranges_repeat(params, alternative.ranges.as_slice()))
}

// Whether an earlier statement defines the STAR.
fn is_defined_before(stars: &[StarDef], star: &StarDef) -> bool
    ensures { result ≡ list_any (λ t. nat_lt t.statement star.now.statement
        && same_numbers t.name star.now.name) stars.now }
{
    stars.iter().any(|other| other.statement < star.statement && same_name(&other.name, &star.name))
}

// Whether a name among the parameters and the for-all names is there twice.
fn names_repeat(star: &StarDef) -> bool
    ensures { result ≡ (recurs (λ p. p.name) star.now.params
        || list_any (λ a. ranges_repeat star.now.params a.ranges) star.now.alternatives) }
{
    let params = star.params.as_slice();
    parameters_recur(params) || some_ranges_repeat(params, star.alternatives.as_slice())
}

#[tactic(auto, using(crate::proofs::Repeated::star_twice))]
fn is_star_twice(rules: &RuleFile, star: &StarDef) -> bool
    ensures { result ≡ is_star_twice rules.now star.now }
{
    is_defined_before(rules.stars.as_slice(), star) || names_repeat(star)
}

fn defines_before(other: &FormulaDef, definition: &FormulaDef) -> bool
    ensures { result ≡ (nat_lt other.now.statement definition.now.statement
        && same_flavour other.now.flavour definition.now.flavour
        && same_which other.now.which definition.now.which) }
{
    other.statement < definition.statement
        && other.flavour == definition.flavour
        && other.which == definition.which
}

fn is_formula_twice(rules: &RuleFile, definition: &FormulaDef) -> bool
    ensures { result ≡ is_formula_twice rules.now definition.now }
{
    rules
        .formulas
        .as_slice()
        .iter()
        .any(|other| defines_before(other, definition))
}

fn weighs_before(other: &SelectDef, definition: &SelectDef) -> bool
    ensures { result ≡ (nat_lt other.now.statement definition.now.statement
        && same_class other.now.class definition.now.class) }
{
    other.statement < definition.statement && other.class == definition.class
}

fn is_select_twice(rules: &RuleFile, definition: &SelectDef) -> bool
    ensures { result ≡ is_select_twice rules.now definition.now }
{
    rules
        .selects
        .as_slice()
        .iter()
        .any(|other| weighs_before(other, definition))
}

fn first_star_twice(rules: &RuleFile) -> Option<u32>
    ensures { result ≡ first_star (is_star_twice rules.now) rules.now.stars }
{
    rules
        .stars
        .as_slice()
        .iter()
        .filter(|star| is_star_twice(rules, star))
        .map(|star| star.statement)
        .min()
}

fn first_formula_twice(rules: &RuleFile) -> Option<u32>
    ensures { result ≡ first_formula (is_formula_twice rules.now) rules.now.formulas }
{
    rules
        .formulas
        .as_slice()
        .iter()
        .filter(|definition| is_formula_twice(rules, definition))
        .map(|definition| definition.statement)
        .min()
}

fn first_select_twice(rules: &RuleFile) -> Option<u32>
    ensures { result ≡ first_select (is_select_twice rules.now) rules.now.selects }
{
    rules
        .selects
        .as_slice()
        .iter()
        .filter(|definition| is_select_twice(rules, definition))
        .map(|definition| definition.statement)
        .min()
}

/// The first statement that defines what an earlier one defines, or has a name twice.
pub fn first_twice(rules: &RuleFile) -> Option<u32>
    ensures { result ≡ first_twice rules.now }
{
    earlier_of(
        first_star_twice(rules),
        earlier_of(first_formula_twice(rules), first_select_twice(rules)),
    )
}
