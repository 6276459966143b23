// The files of a command, each fetched and judged.
ghost use Rattle.star_model.specs.WellFormed.{WellFormedCatalogue};
ghost use Rattle.sb_outside.specs.Shelf.{Goes, GoesBy};
ghost use Rattle.stars_core.specs.Judging.{RulesPass, CataloguePasses, QueryPasses, DerivationPasses, StopsAlways, StopsOver};
ghost use Rattle.stars_core.specs.Shelves.{Taken};
ghost use Rattle.stars_core.specs.Composing.{CaseTaken};

use crate::read::fetch;
use crate::{Case, Refusal, TextKind, judge_catalogue, judge_derivation, judge_query, judge_rules};
use sb_outside::Shelf;
use star_check::CheckedRules;
use star_model::catalogue::Catalogue;
use star_model::derivations::Deriv;
use star_model::query::Query;
use std::alloc::Global;

// The rules of the file of this name.
pub fn take_rules<S: Shelf>(
    alloc: Global,
    shelf: &mut S,
    name: &str,
) -> Result<CheckedRules, Refusal>
    ensures goes { Goes (S.state shelf.old) (S.state shelf.new) }
    ensures taken { Taken RulesPass (StopsAlways TextKind.Rules) (S.state shelf.old)
        (S.state shelf.new) (TextKind.Rules, name.now) result }
{
    let text = fetch(alloc, shelf, TextKind::Rules, name)?;
    judge_rules(alloc, text.as_slice())
}

fn take_catalogue<S: Shelf>(alloc: Global, shelf: &mut S, name: &str) -> Result<Catalogue, Refusal>
    ensures goes { Goes (S.state shelf.old) (S.state shelf.new) }
    ensures taken { Taken CataloguePasses (StopsAlways TextKind.Catalogue) (S.state shelf.old)
        (S.state shelf.new) (TextKind.Catalogue, name.now) result }
{
    let text = fetch(alloc, shelf, TextKind::Catalogue, name)?;
    judge_catalogue(alloc, text.as_slice())
}

fn take_query<S: Shelf>(
    alloc: Global,
    shelf: &mut S,
    catalogue: &Catalogue,
    name: &str,
) -> Result<Query, Refusal>
    requires { WellFormedCatalogue catalogue.now }
    ensures goes { Goes (S.state shelf.old) (S.state shelf.new) }
    ensures taken { Taken (QueryPasses catalogue.now) (StopsOver catalogue.now) (S.state shelf.old)
        (S.state shelf.new) (TextKind.Query, name.now) result }
{
    let text = fetch(alloc, shelf, TextKind::Query, name)?;
    judge_query(alloc, catalogue, text.as_slice())
}

// The derivation of the file of this name.
pub fn take_derivation<S: Shelf>(alloc: Global, shelf: &mut S, name: &str) -> Result<Deriv, Refusal>
    ensures goes { Goes (S.state shelf.old) (S.state shelf.new) }
    ensures taken { Taken DerivationPasses (StopsAlways TextKind.Derivation) (S.state shelf.old)
        (S.state shelf.new) (TextKind.Derivation, name.now) result }
{
    let text = fetch(alloc, shelf, TextKind::Derivation, name)?;
    judge_derivation(alloc, text.as_slice())
}

// What the three files of these names say.
pub fn take_case<S: Shelf>(
    alloc: Global,
    shelf: &mut S,
    rules: &str,
    catalogue: &str,
    query: &str,
) -> Result<Case, Refusal>
    ensures goes { GoesBy 3 (S.state shelf.old) (S.state shelf.new) }
    ensures taken { CaseTaken (S.state shelf.old) (S.state shelf.new) rules.now catalogue.now
        query.now result }
{
    let rules = take_rules(alloc, shelf, rules)?;
    let catalogue = take_catalogue(alloc, shelf, catalogue)?;
    let query = take_query(alloc, shelf, &catalogue, query)?;
    Ok(Case::new(rules, query))
}
