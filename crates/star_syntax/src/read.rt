// Reading a rule file.
ghost use Rattle.std.specs.Prelude.{◌≤◌, length};
ghost use Rattle.sb_text.specs.Limits.{most_text_bytes};
ghost use Rattle.sb_text.specs.Refusal.{AreTokens};
ghost use Rattle.star_syntax.specs.Faults.{ReadsRules};

use crate::statements::{RulesSoFar, read_statements};
use sb_text::{TextFault, Token, tokens};
use star_model::faults::RuleFault;
use star_model::rules::RuleFile;
use std::alloc::Global;

// The rule file that a text spells, from its tokens.
fn read_tokens(alloc: Global, source: &[u8], tokens: &[Token]) -> Result<RuleFile, RuleFault>
    requires size { length source.now ≤ most_text_bytes }
    requires tokens { AreTokens source.now tokens.now }
    ensures { ReadsRules source.now result }
{
    let RulesSoFar { rules, beyond } = read_statements(alloc, source, tokens)?;
    match beyond {
        None => Ok(rules),
        Some((statement, what)) => Err(RuleFault::Limit(statement, what)),
    }
}

/// The rule file that a text spells, or the first of the faults `Lexical`, `TooDeep`, `Syntax` and
/// `Limit`. Each kind of fault is judged over the whole text before the next, and within a kind the
/// first statement is told. The other faults of rules aren't judged.
pub fn read_rules(alloc: Global, source: &[u8]) -> Result<RuleFile, RuleFault>
    requires { length source.now ≤ most_text_bytes }
    ensures { ReadsRules source.now result }
{
    match tokens(alloc, source) {
        Ok(tokens) => read_tokens(alloc, source, tokens.as_slice()),
        Err(TextFault::Lexical(offset)) => Err(RuleFault::Lexical(offset)),
        Err(TextFault::TooDeep(statement)) => Err(RuleFault::TooDeep(statement)),
        Err(TextFault::Memory) => Err(RuleFault::Memory),
    }
}
