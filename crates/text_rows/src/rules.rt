// Rule files: their canonical texts, and what the check says of them.
ghost use Rattle.star_model.specs.WellFormedRules.{WellFormedRules};

use star_check::check_rules;
use star_model::rules::RuleFile;
use star_syntax::{print_rules, read_rules};
use std::alloc::{AllocError, Global};

// The greatest length of a text in bytes.
const LONGEST: usize = 1_048_576;

/// The canonical text of the rules that a text spells, or the fault of the text.
pub fn canonical(alloc: Global, text: &str) -> Result<String, AllocError> {
    if text.len() > LONGEST {
        return Err(AllocError);
    }
    match read_rules(alloc, text.as_bytes()) {
        Ok(rules) => {
            let printed = print_rules(alloc, &rules)?;
            String::from_utf8_lossy(alloc, printed.as_slice())
        }
        Err(fault) => format!(in alloc; "{fault:?}"),
    }
}

// `accepted`, or the fault of the rules.
fn answer_of_check(alloc: Global, rules: RuleFile) -> Result<String, AllocError>
    requires { WellFormedRules rules }
{
    match check_rules(alloc, rules) {
        Ok(_accepted) => String::from_str(alloc, "accepted"),
        Err(fault) => format!(in alloc; "{fault:?}"),
    }
}

/// `accepted`, or the fault of the text or of the rules that it spells.
pub fn verdict(alloc: Global, text: &str) -> Result<String, AllocError> {
    if text.len() > LONGEST {
        return Err(AllocError);
    }
    match read_rules(alloc, text.as_bytes()) {
        Ok(rules) => answer_of_check(alloc, rules),
        Err(fault) => format!(in alloc; "{fault:?}"),
    }
}
