// Accepted rule files, and the check that gives them.
ghost use Rattle.std.specs.Prelude.{◌≡◌, map, IfOk};
ghost use Rattle.std.specs.Option.{option_copied};
ghost use Rattle.star_model.specs.Costs.{costs_of};
ghost use Rattle.star_model.specs.Selectivity.{selects_of};
ghost use Rattle.star_model.specs.Stars.{star_named};
ghost use Rattle.star_model.specs.Accepted.{IsAccepted};
ghost use Rattle.star_model.specs.WellFormedRules.{WellFormedRules};
ghost use Rattle.star_check.specs.Checking.{Checks};
ghost use Rattle.star_check.specs.Owning.{FormulasAreOwn, SelectsAreOwn};

use crate::faults::first_fault;
use crate::names;
use star_model::costs::Costs;
use star_model::faults::RuleFault;
use star_model::lists::Name;
use star_model::rules::{FormulaDef, RuleFile, SelectDef, StarDef};
use star_model::selects::Selects;
use std::alloc::{AllocError, Global};
use std::marker::Model;

/// An accepted rule file, from which plans can be made.
#[derive(Drop)]
pub struct CheckedRules {
    rules: RuleFile,
    costs: Costs,
    selects: Selects,
}

impl Model for CheckedRules {
    ghost use Rattle.star_model.specs.declared.rules.RuleFile.{RuleFile};
    ghost use Rattle.star_model.specs.contracts.rules.RuleFile as file;
    ghost use Rattle.star_check.specs.CheckedFiles.{IsChecked};

    ghost Value = { RuleFile };

    ghost coded = { file.the_row.coded };

    ghost view = { λ c. c.rules };

    ghost invariant = { λ c. IsChecked c.rules c.costs c.selects };
}

impl CheckedRules {
    /// The STAR of this name.
    pub fn star(&self, name: &Name) -> Option<&StarDef>
        ensures { option_copied result ≡ star_named self.now name.now }
    {
        names::star_named(&self.rules, name)
    }

    /// The formulas of the file.
    pub fn costs(&self) -> &Costs
        ensures { result.now ≡ costs_of self.now }
    {
        &self.costs
    }

    /// The selectivities of the file.
    pub fn selects(&self) -> &Selects
        ensures { result.now ≡ selects_of self.now }
    {
        &self.selects
    }

    /// The file itself.
    pub fn rules(&self) -> &RuleFile
        ensures { result.now ≡ self.now }
    {
        &self.rules
    }

    /// What each checked file keeps. It does nothing.
    pub fn stands(&self)
        ensures formed { WellFormedRules self.now }
        ensures accepted { IsAccepted self.now }
    {
        let _rules = &self.rules;
    }
}

// The formulas as a map.
fn costs_of(alloc: Global, formulas: &[FormulaDef]) -> Result<Costs, AllocError>
    requires { FormulasAreOwn formulas.now }
    ensures { IfOk result (λ costs. costs ≡ map
        (λ d. record { flavour = d.flavour; which = d.which; formula = d.formula }) formulas.now) }
{
    let mut costs = Costs::new(alloc);
    for definition in formulas {
        let formula = definition.formula.copy(alloc)?;
        costs.put(definition.flavour, definition.which, formula)?;
    }
    Ok(costs)
}

// The selectivities as a map.
fn selects_of(alloc: Global, definitions: &[SelectDef]) -> Result<Selects, AllocError>
    requires { SelectsAreOwn definitions.now }
    ensures { IfOk result (λ selects. selects
        ≡ map (λ d. record { class = d.class; num = d.num; den = d.den }) definitions.now) }
{
    let mut selects = Selects::new(alloc);
    for definition in definitions {
        let num = definition.num.copy(alloc)?;
        let den = definition.den.copy(alloc)?;
        selects.put(definition.class, num, den)?;
    }
    Ok(selects)
}

/// Accepts a rule file, or says why not. The order of the refusals is that of `RuleFault`, each
/// over the whole file. On a refusal the file is dropped.
pub fn check_rules(alloc: Global, rules: RuleFile) -> Result<CheckedRules, RuleFault>
    requires { WellFormedRules rules }
    ensures { Checks rules result }
{
    if let Some(fault) = first_fault(alloc, &rules)? {
        return Err(fault);
    }
    let costs = costs_of(alloc, rules.formulas.as_slice())?;
    let selects = selects_of(alloc, rules.selects.as_slice())?;
    Ok(CheckedRules {
        rules,
        costs,
        selects,
    })
}
