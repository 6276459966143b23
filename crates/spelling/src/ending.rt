// The space before a lexeme.

ghost use Rattle.std.specs.Prelude.{◌≡◌};
ghost use Rattle.spelling.specs.Layout.{is_one_of};
ghost use Rattle.spelling.specs.Writing.{ending_of_symbol, symbol_hangs, is_open};

/// What a statement ends with so far, as the space before its next lexeme needs it.
#[derive(Clone, Copy, Debug, PartialEq, Eq)]
pub enum Ending {
    /// Nothing, or a symbol that no space follows.
    Open,
    /// A word, which a bracket follows without a space.
    Name,
    /// Any other lexeme.
    Closed,
}

#[tactic(auto, using(crate::proofs::Signs::signs))]
fn is_one_of(signs: &[u8], symbol: &[u8]) -> bool
    ensures { result ≡ is_one_of signs.now symbol.now }
{
    match symbol {
        [] => false,
        [sign] => signs.contains(sign),
        [_, _, ..] => false,
    }
}

impl Ending {
    /// How a statement ends whose last lexeme is this symbol.
    pub fn of_symbol(symbol: &[u8]) -> Ending
        ensures { result ≡ ending_of_symbol symbol.now }
    {
        if is_one_of(b"([{.", symbol) {
            Ending::Open
        } else {
            Ending::Closed
        }
    }

    /// Whether a lexeme that is no symbol follows this ending without a space.
    pub fn is_open(self) -> bool
        ensures { result ≡ is_open self }
    {
        match self {
            Ending::Open => true,
            Ending::Name => false,
            Ending::Closed => false,
        }
    }

    /// Whether a symbol follows this ending without a space.
    pub fn takes(self, symbol: &[u8]) -> bool
        ensures { result ≡ symbol_hangs self symbol.now }
    {
        match self {
            Ending::Open => true,
            Ending::Name => is_one_of(b",;)]}.([", symbol),
            Ending::Closed => is_one_of(b",;)]}.", symbol),
        }
    }
}
