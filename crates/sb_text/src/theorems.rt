//! The laws of the definitions, each the clause of a function that does nothing.

ghost use Rattle.std.specs.Prelude.{◌≡◌, ◌<◌, ◌≤◌, ◌↔◌, ℕ, true, false, IsTrue, All, List as Seq, [], ◌∷◌, ◌++◌, length, Option, Some, None};
ghost use Rattle.std.specs.List.{AllPass, filter, flat_map};
ghost use Rattle.sb_text.specs.Bytes.{is_in_word, is_quote};
ghost use Rattle.sb_text.specs.Forms.{IsWord, IsNumber, IsSymbol, NotFirst, NoDouble, quoted};
ghost use Rattle.sb_text.specs.Front.{token_at, IsLongest, NoneBegins};
ghost use Rattle.sb_text.specs.Tokens.{lexed};
ghost use Rattle.sb_text.specs.Reading.{Reads, IsTokenOf, AreInOrder, Stops};
ghost use Rattle.sb_text.specs.Statements.{Part, tokens_of, parts, is_end, is_inside};
ghost use Rattle.sb_text.specs.Refusal.{fault_of, IsAccepted};
ghost use Rattle.sb_text.specs.declared.token.Token.{Token};
ghost use Rattle.sb_text.specs.declared.token.TokenKind.{TokenKind};
ghost use Rattle.sb_text.specs.declared.token.TokenKind.TheVariants.{Word, Number, Text, Symbol};

/// The token that is found at the front is the longest there, and none is found exactly where none
/// begins.
pub fn longest_token_is_found()
    ensures found { (bytes : Seq ℕ) (kind : TokenKind) (len : ℕ)
        → (token_at bytes ≡ Some (kind, len)) ↔ IsLongest kind len bytes }
    ensures none { (bytes : Seq ℕ) → (token_at bytes ≡ None) ↔ NoneBegins bytes }
{}

/// A token ends where what follows it cannot go on with it.
pub fn token_ends_before_other_bytes()
    ensures word { (front after : Seq ℕ) → IsWord front → NotFirst is_in_word after
        → IsLongest Word (length front) (front ++ after) }
    ensures number { (front after : Seq ℕ) → IsNumber front after
        → IsLongest Number (length front) (front ++ after) }
    ensures text { (inner after : Seq ℕ) → NotFirst is_quote after
        → IsLongest Text (length (quoted inner)) (quoted inner ++ after) }
    ensures symbol { (front after : Seq ℕ) → IsSymbol front → NoDouble front after
        → IsLongest Symbol (length front) (front ++ after) }
{}

/// Each text is read in exactly one way.
pub fn text_has_one_reading()
    ensures one { (source : Seq ℕ) → Reads 0 source (lexed source).0 (lexed source).1 }
    ensures only { (source : Seq ℕ) (tokens : Seq Token) (stop : Option ℕ)
        → Reads 0 source tokens stop → lexed source ≡ (tokens, stop) }
{}

/// The tokens stand in their text, in order, and the reading stops where no token begins.
pub fn tokens_stand_in_their_text()
    ensures each { (source : Seq ℕ) → All (IsTokenOf source) (lexed source).0 }
    ensures order { (source : Seq ℕ) → AreInOrder 0 (lexed source).0 }
    ensures count { (source : Seq ℕ) → length (lexed source).0 ≤ length source }
    ensures stop { (source : Seq ℕ) (place : ℕ) → (lexed source).1 ≡ Some place
        → Stops source place }
{}

/// What `;` does: the statements are the slices before each, and what follows the last one.
pub fn statements_end_at_semicolons()
    ensures ended { (front rest : Seq Token) (semicolon : Token) → AllPass is_inside front
        → IsTrue (is_end semicolon) → parts (front ++ semicolon ∷ rest)
        ≡ (front, true) ∷ parts rest }
    ensures last { (front : Seq Token) → AllPass is_inside front → 0 < length front
        → parts front ≡ (front, false) ∷ [] }
{}

/// The statements put together are the tokens without the `;`, and there are no more of them than
/// tokens.
pub fn statements_have_all_tokens()
    ensures joined { (tokens : Seq Token) → flat_map tokens_of (parts tokens)
        ≡ filter is_inside tokens }
    ensures inside { (tokens : Seq Token) → All
        (λ (part : Part). AllPass is_inside (tokens_of part)) (parts tokens) }
    ensures count { (tokens : Seq Token) → length (parts tokens) ≤ length tokens }
    ensures each { (source : Seq ℕ) → All (λ (part : Part). All (IsTokenOf source) (tokens_of part))
        (parts (lexed source).0) }
{}

/// A text without a fault is tokens to its end, with no statement too deep.
pub fn text_without_fault_is_accepted()
    ensures { (source : Seq ℕ) → (fault_of source ≡ None) ↔ IsAccepted source }
{}
