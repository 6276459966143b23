// The text of rules that are accepted.
ghost use Rattle.std.specs.Prelude.{IfOk};
ghost use Rattle.star_model.specs.WellFormedRules.{WellFormedRules};
ghost use Rattle.stars_core.specs.Saying.{RulesText};

use crate::{Answer, Ending};
use star_check::CheckedRules;
use star_syntax::print_rules;
use std::alloc::{AllocError, Global};

/// The rule file in canonical layout: a statement on each line, in the order of the file.
///
/// Rules that `judge_rules` gives have statements of different numbers.
pub fn print_checked(alloc: Global, rules: &CheckedRules) -> Result<Answer, AllocError>
    requires { WellFormedRules rules.now }
    ensures { IfOk result (λ answer. RulesText rules.now answer.ending answer.text.items) }
{
    Ok(Answer {
        ending: Ending::Done,
        text: print_rules(alloc, rules.rules())?,
    })
}
