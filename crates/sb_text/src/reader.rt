// The reader of tokens.
ghost use Rattle.std.specs.Prelude.{◌≡◌, ◌≤◌, ◌<◌, length, drop, None, Some, MatchResult, IfOk};
ghost use Rattle.sb_text.specs.Limits.{most_text_bytes};
ghost use Rattle.sb_text.specs.declared.token.TextFault.TheVariants.{Lexical};
ghost use Rattle.sb_text.specs.Tokens.{lexed};
ghost use Rattle.sb_text.specs.Refusal.{AreTokens, IsFault, IsLexical};

use crate::depth::first_too_deep;
use crate::front::{gap, token};
use crate::{TextFault, Token};
use std::alloc::Global;

// The bytes from a place on.
fn rest_from(source: &[u8], at: usize) -> &[u8]
    requires { at ≤ length source.now }
    ensures { result.now ≡ drop at source.now }
{
    source.split_at(at).1
}

// The tokens, however deep their brackets are.
fn lexed(alloc: Global, source: &[u8]) -> Result<Vec<Token>, TextFault>
    requires { length source.now ≤ most_text_bytes }
    ensures tokens { MatchResult result (λ v. lexed source.now ≡ (v.items, None))
        (λ fault. IsLexical source.now fault) }
    ensures count { IfOk result (λ v. length v.items ≤ length source.now) }
{
    let mut tokens = Vec::new(alloc);
    let mut at = 0;
    while at < source.len() {
        let rest = rest_from(source, at);
        let skipped = gap(rest);
        if skipped > 0 {
            at += skipped;
        } else {
            let Some((kind, len)) = token(rest) else {
                return Err(TextFault::Lexical(at as u32));
            };
            let end = at + len;
            tokens.push(Token {
                kind,
                start: at as u32,
                end: end as u32,
                first: rest[0],
            })?;
            at = end;
        }
    }
    Ok(tokens)
}

/// The tokens of a text, in order, or why it is refused. `Lexical` is judged over the whole text
/// before `TooDeep`, and want of memory may come at any text. The time is linear in the length of
/// the text.
pub fn tokens(alloc: Global, source: &[u8]) -> Result<Vec<Token>, TextFault>
    requires { length source.now ≤ most_text_bytes }
    ensures { MatchResult result (λ v. AreTokens source.now v.items) (IsFault source.now) }
{
    let tokens = lexed(alloc, source)?;
    match first_too_deep(tokens.as_slice()) {
        Some(statement) => Err(TextFault::TooDeep(statement)),
        None => Ok(tokens),
    }
}
