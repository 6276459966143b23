// What the texts of a workload say. None of them has a fault, so reading them fails only where
// memory runs out.

ghost use Rattle.std.specs.Prelude.{◌≡◌, IfOk};
ghost use Rattle.star_model.specs.WellFormed.{WellFormedCatalogue};
ghost use Rattle.star_model.specs.declared.faults.RuleFault.TheVariants as rule_fault;
ghost use Rattle.catalogue.specs.Faults as of_catalogue;
ghost use Rattle.query_graph.specs.Faults as of_query;
ghost use Rattle.workload_gen.specs.RulesText.{rules_text};
ghost use Rattle.workload_runs.specs.AcceptedTexts.{IsCatalogueText, IsQueryText};
ghost use Rattle.workload_runs.specs.Cases.{Says};
ghost use Rattle.workload_runs.specs.RulesTree.{generator_rules};
ghost use Rattle.workload_runs.specs.Made.{IsMade};

use catalogue::{CatFault, read_catalogue};
use lolepop::weigh;
use query_graph::{QueryFault, read_query};
use star_check::{CheckedRules, check_rules};
use star_model::catalogue::Catalogue;
use star_model::faults::RuleFault;
use star_model::query::Query;
use star_model::rules::RuleFile;
use star_syntax::read_rules;
use std::alloc::{AllocError, Global};
use workload_gen::Workload;

/// The rules and the query that the texts of a workload say.
#[derive(Drop)]
pub struct Case {
    pub rules: CheckedRules,
    /// Its predicates have the selectivities that the rules give.
    pub query: Query,
}

fn read_rule_file(alloc: Global, text: &[u8]) -> Result<RuleFile, AllocError>
    requires { text.now ≡ rules_text }
    ensures { IfOk result (λ rules. rules ≡ generator_rules) }
{
    match read_rules(alloc, text) {
        Ok(rules) => Ok(rules),
        Err(fault) => {
            prove!(matches!(&fault, RuleFault::Memory));
            Err(AllocError)
        }
    }
}

fn check(alloc: Global, rules: RuleFile) -> Result<CheckedRules, AllocError>
    requires { rules ≡ generator_rules }
    ensures { IfOk result (λ checked. checked ≡ generator_rules) }
{
    match check_rules(alloc, rules) {
        Ok(checked) => Ok(checked),
        Err(fault) => {
            prove!(matches!(&fault, RuleFault::Memory));
            Err(AllocError)
        }
    }
}

fn catalogue_of(alloc: Global, text: &[u8]) -> Result<Catalogue, AllocError>
    requires { IsCatalogueText text.now }
    ensures { IfOk result (of_catalogue.IsAccepted text.now) }
{
    match read_catalogue(alloc, text) {
        Ok(catalogue) => Ok(catalogue),
        Err(fault) => {
            prove!(matches!(&fault, CatFault::Memory));
            Err(AllocError)
        }
    }
}

fn query_of(alloc: Global, catalogue: &Catalogue, text: &[u8]) -> Result<Query, AllocError>
    requires catalogue { WellFormedCatalogue catalogue.now }
    requires text { IsQueryText catalogue.now text.now }
    ensures { IfOk result (of_query.IsAccepted catalogue.now text.now) }
{
    match read_query(alloc, catalogue, text) {
        Ok(query) => Ok(query),
        Err(fault) => {
            prove!(matches!(&fault, QueryFault::Memory));
            Err(AllocError)
        }
    }
}

/// What the texts of a workload say.
pub fn read_case(alloc: Global, made: &Workload) -> Result<Case, AllocError>
    requires { IsMade made.now }
    ensures { IfOk result (λ case. Says made.now case.rules case.query) }
{
    let rules = read_rule_file(alloc, made.rules.as_slice())?;
    let rules = check(alloc, rules)?;
    let catalogue = catalogue_of(alloc, made.catalogue.as_slice())?;
    let mut query = query_of(alloc, &catalogue, made.query.as_slice())?;
    weigh(&mut query, rules.selects());
    Ok(Case { rules, query })
}
