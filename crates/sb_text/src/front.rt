// What stands at the front of the bytes: white space, a comment or a token.
ghost use Rattle.std.specs.Prelude.{◌≡◌, ◌≤◌, ◌<◌, ◌+◌, ◌^◌, length, IfSome};
ghost use Rattle.sb_text.specs.Bytes.{is_blank, begins_word, is_digit, is_in_word, is_symbol, is_double};
ghost use Rattle.sb_text.specs.Front.{run, in_comment, gap_at, symbol_len, quoted_len, number_len, token_at};

use crate::TokenKind;

fn is_blank(b: u8) -> bool
    ensures { result ≡ is_blank b }
{
    b == b' ' || b == b'\t' || b == b'\r' || b == b'\n'
}

fn begins_word(b: u8) -> bool
    ensures { result ≡ begins_word b }
{
    (b >= b'A' && b <= b'Z') || (b >= b'a' && b <= b'z') || b == b'_'
}

fn is_digit(b: u8) -> bool
    ensures { result ≡ is_digit b }
{
    b >= b'0' && b <= b'9'
}

fn is_in_word(b: u8) -> bool
    ensures { result ≡ is_in_word b }
{
    begins_word(b) || is_digit(b)
}

fn word_run(bytes: &[u8]) -> usize
    ensures value { result ≡ run is_in_word bytes.now }
    ensures bound { result ≤ length bytes.now }
{
    bytes.iter().take_while(|b| is_in_word(**b)).count()
}

fn digit_run(bytes: &[u8]) -> usize
    ensures value { result ≡ run is_digit bytes.now }
    ensures bound { result ≤ length bytes.now }
{
    bytes.iter().take_while(|b| is_digit(**b)).count()
}

fn comment_run(bytes: &[u8]) -> usize
    ensures value { result ≡ run in_comment bytes.now }
    ensures bound { result ≤ length bytes.now }
{
    bytes.iter().take_while(|b| **b != b'\n').count()
}

// How many bytes of white space, or of a comment, stand at the front.
pub fn gap(bytes: &[u8]) -> usize
    requires { length bytes.now < 2 ^ 32 }
    ensures value { result ≡ gap_at bytes.now }
    ensures bound { result ≤ length bytes.now }
{
    match bytes {
        [] => 0,
        [b, rest @ ..] => {
            if is_blank(*b) {
                1
            } else if *b == b'#' {
                comment_run(rest) + 1
            } else {
                0
            }
        }
    }
}

fn is_symbol(b: u8) -> bool
    ensures { result ≡ is_symbol b }
{
    matches!(
        b,
        b'(' | b')'
            | b'['
            | b']'
            | b'{'
            | b'}'
            | b','
            | b';'
            | b'.'
            | b'|'
            | b'='
            | b'<'
            | b'>'
            | b'+'
            | b'-'
            | b'*'
            | b'/'
    )
}

fn is_double(b: u8, c: u8) -> bool
    ensures { result ≡ is_double b c }
{
    (b == b'<' && (c == b'=' || c == b'>')) || (b == b'>' && c == b'=')
}

// The length of the symbol that begins with `b`, where one does.
fn symbol(b: u8, rest: &[u8]) -> Option<usize>
    ensures value { result ≡ symbol_len b rest.now }
    ensures bound { IfSome result (λ n. (0 < n) × (n ≤ length rest.now + 1)) }
{
    if let [c, ..] = rest
        && is_double(b, *c)
    {
        return Some(2);
    }
    if is_symbol(b) { Some(1) } else { None }
}

// The bytes of a text behind its first quote, with the last one. A doubled quote ends the text
// where no later one does.
fn quoted(rest: &[u8]) -> Option<usize>
    ensures value { result ≡ quoted_len rest.now }
    ensures bound { IfSome result (λ n. (0 < n) × (n ≤ length rest.now)) }
{
    let mut at = 0;
    let mut closed = None;
    while at < rest.len() {
        if rest[at] != b'\'' {
            at += 1;
        } else if at + 1 < rest.len() && rest[at + 1] == b'\'' {
            closed = Some(at + 1);
            at += 2;
        } else {
            return Some(at + 1);
        }
    }
    closed
}

fn number(digits: usize) -> Option<usize>
    ensures { result ≡ number_len digits }
{
    if digits <= 19 { Some(digits) } else { None }
}

// The kind and the length of the longest token at the front, where one begins there.
pub fn token(bytes: &[u8]) -> Option<(TokenKind, usize)>
    requires { length bytes.now < 2 ^ 32 }
    ensures value { result ≡ token_at bytes.now }
    ensures bound { IfSome result (λ found. (0 < found.1) × (found.1 ≤ length bytes.now)) }
{
    let [b, rest @ ..] = bytes else {
        return None;
    };
    if begins_word(*b) {
        Some((TokenKind::Word, word_run(rest) + 1))
    } else if is_digit(*b) {
        let len = number(digit_run(rest) + 1)?;
        Some((TokenKind::Number, len))
    } else if *b == b'\'' {
        let len = quoted(rest)?;
        Some((TokenKind::Text, len + 1))
    } else {
        let len = symbol(*b, rest)?;
        Some((TokenKind::Symbol, len))
    }
}
