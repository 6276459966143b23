// Laws of the definitions.
ghost use Rattle.std.specs.Prelude.{◌≡◌, ℕ, List, [], Option};
ghost use Rattle.sb_outside.specs.Shelf.{Files, ShelfState};
ghost use Rattle.sb_outside.specs.Sink.{SinkState};
ghost use Rattle.star_model.specs.Selectivity.{selects_of, weighed};
ghost use Rattle.star_model.specs.declared.catalogue.Catalogue.{Catalogue as CatalogueTree};
ghost use Rattle.star_model.specs.declared.query.Query.{Query as QueryTree};
ghost use Rattle.star_model.specs.declared.rules.RuleFile.{RuleFile};
ghost use Rattle.stars_core.specs.CommandLine.{CommandLine, requests_of, HasSize};
ghost use Rattle.stars_core.specs.Given.{Given};
ghost use Rattle.stars_core.specs.Faults.{Verdict, Judged, PassAll};
ghost use Rattle.stars_core.specs.Judging.{RulesPass, CataloguePasses, QueryPasses};
ghost use Rattle.stars_core.specs.Saying.{Saying, Says, SaysCase, three};
ghost use Rattle.stars_core.specs.Shelves.{HeldAs};
ghost use Rattle.stars_core.specs.Answers.{Answered, DoneSays};

use crate::{Command, Status};

/// One text has exactly one verdict, whatever texts stand before it.
pub fn one_verdict()
    ensures one { (earlier : List Given) (this : Given) (a b : Verdict) → Judged earlier this a
        → Judged earlier this b → a ≡ b }
    ensures some { (earlier : List Given) (this : Given) → (verdict : Verdict)
        × Judged earlier this verdict }
{}

/// Texts that a command asks for say something to it where they are accepted; and the texts of each
/// workload do.
pub fn accepted_texts_say()
    ensures { (told : Option Files) (command : Command) (words : CommandLine) (given : List Given)
        → HasSize command → HeldAs told (requests_of command words) given → PassAll [] given
        → (saying : Saying command) × Says command given saying }
{}

/// Texts say at most one thing to a command.
pub fn one_reading()
    ensures { (command : Command) (given : List Given) (a b : Saying command) → Says command given a
        → Says command given b → a ≡ b }
{}

/// Where a run is done, told or not, some texts say something, and what was put out is the
/// command's answer of it.
pub fn done_says()
    ensures { (words : CommandLine) (shelf shelf' : ShelfState) (out out' err err' : SinkState)
        → Answered Status.Done words shelf shelf' out out' err err' → DoneSays words out out' }
{}

/// Three texts that have no fault are accepted, and say the rules and the query that they are
/// judged to spell, each predicate with the selectivity that the rules give.
pub fn texts_without_fault_say()
    ensures pass { (r c q : List ℕ) (rules : RuleFile) (catalogue : CatalogueTree)
        (query : QueryTree) → RulesPass r rules → CataloguePasses c catalogue
        → QueryPasses catalogue q query
        → PassAll [] (three r c q) }
    ensures say { (r c q : List ℕ) (rules : RuleFile) (catalogue : CatalogueTree)
        (query : QueryTree) → RulesPass r rules → CataloguePasses c catalogue
        → QueryPasses catalogue q query
        → SaysCase r c q rules (weighed (selects_of rules) query) }
{}
