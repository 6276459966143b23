// The first statement that is too deep or too long.
ghost use Rattle.std.specs.Prelude.{◌≡◌, ◌≤◌, ◌<◌, ◌+◌, ◌^◌, length};
ghost use Rattle.sb_text.specs.Limits.{most_text_bytes};
ghost use Rattle.sb_text.specs.Statements.{parts};
ghost use Rattle.sb_text.specs.Depth.{depth_after, is_too_deep, first_too_deep};

use crate::{Token, statements};

const MOST_TOKENS: usize = 4096;

const MOST_DEPTH: usize = 32;

// The depth of brackets behind a token.
fn depth_after(depth: usize, token: &Token) -> usize
    requires { depth < 2 ^ 32 }
    ensures { result ≡ depth_after depth token.now }
{
    match token.first {
        b'(' | b'[' | b'{' => depth + 1,
        b')' | b']' | b'}' => depth.saturating_sub(1),
        _ => depth,
    }
}

// Whether a statement has too many tokens or nests its brackets too deep.
fn is_too_deep(tokens: &[Token]) -> bool
    ensures { result ≡ is_too_deep tokens.now }
{
    if tokens.len() > MOST_TOKENS {
        return true;
    }
    let mut depth = 0;
    for token in tokens {
        depth = depth_after(depth, token);
        if depth > MOST_DEPTH {
            return true;
        }
    }
    false
}

// The number of the first statement that is too deep, where one is.
pub fn first_too_deep(tokens: &[Token]) -> Option<u32>
    requires { length tokens.now ≤ most_text_bytes }
    ensures { result ≡ first_too_deep (parts tokens.now) }
{
    let mut number = 1;
    for statement in statements(tokens) {
        if is_too_deep(statement.tokens) {
            return Some(number);
        }
        number += 1;
    }
    None
}
