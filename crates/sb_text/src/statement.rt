// The statements of a list of tokens.
ghost use Rattle.std.specs.Prelude.{◌≡◌, ◌≤◌, length};
ghost use Rattle.std.specs.Iterator.{YieldsFirstBy, item_count};
ghost use Rattle.sb_text.specs.Statements.{parts, part_len, part_of, parts_of_iter};

use crate::Token;

/// A statement of a text.
#[derive(Clone, Copy)]
pub struct Statement<'a> {
    /// Its tokens, without the `;`.
    pub tokens: &'a [Token],
    /// Whether a `;` ends it. Only the last statement of a text may lack it.
    pub ended: bool,
}

/// The statements of a list of tokens, in order. It takes no memory.
#[derive(Drop)]
pub struct StatementIter<'a> {
    rest: &'a [Token],
}

// How many tokens stand before the first `;`.
fn part_len(tokens: &[Token]) -> usize
    ensures value { result ≡ part_len tokens.now }
    ensures bound { result ≤ length tokens.now }
{
    tokens
        .iter()
        .take_while(|token| token.first != b';')
        .count()
}

impl<'a> Iterator for StatementIter<'a> {
    type Item = Statement<'a>;

    ghost next_gives = { YieldsFirstBy part_of (λ s. parts s.rest.now) };

    ghost remaining = { item_count (λ s. parts s.rest.now) };

    fn next(&mut self) -> Option<Statement<'a>> {
        let len = part_len(self.rest);
        let (tokens, behind) = self.rest.split_at(len);
        if behind.is_empty() {
            self.rest = behind;
            if tokens.is_empty() {
                return None;
            }
            return Some(Statement {
                tokens,
                ended: false,
            });
        }
        self.rest = behind.split_at(1).1;
        Some(Statement {
            tokens,
            ended: true,
        })
    }
}

/// The slices of the tokens before each `;`, and then, where tokens follow the last `;`, the slice
/// of these.
pub fn statements(tokens: &[Token]) -> StatementIter<'_>
    ensures { parts_of_iter result ≡ parts tokens.now }
{
    StatementIter { rest: tokens }
}
