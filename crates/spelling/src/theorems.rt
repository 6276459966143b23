// The laws of the definitions, each the clause of a function that does nothing.

ghost use Rattle.std.specs.Prelude.{◌≡◌, ◌↔◌, ◌+◌, ◌≤◌, ℕ, List, [], ◌∷◌, ◌++◌, length, map, true, None, Some};
ghost use Rattle.sb_text.specs.declared.token.Token.{Token};
ghost use Rattle.std.specs.List.{AllPass, flat_map};
ghost use Rattle.sb_text.specs.Front.{in_comment};
ghost use Rattle.sb_text.specs.Tokens.{lexed};
ghost use Rattle.sb_text.specs.Statements.{parts};
ghost use Rattle.sb_text.specs.Refusal.{AreTokens, fault_of};
ghost use Rattle.spelling.specs.Lexemes.{Lexeme, Word, Number, Text, Symbol, IsStatements, lexemes_of, statements_in, joined_by};
ghost use Rattle.star_model.specs.Every.{Every};
ghost use Rattle.spelling.specs.Cursors.{AreTokensOf, part_said, IsPartOf};
ghost use Rattle.spelling.specs.Shallow.{IsShallow};
ghost use Rattle.spelling.specs.Layout.{spaced, line, layout, commented, IsLexeme};
ghost use Rattle.spelling.specs.Reading.{the_word, the_symbol, a_word, a_number, a_text};
ghost use Rattle.spelling.specs.Writing.{Written, whole, put, puts, ended, lines};

/// One text has one list of statements.
pub fn one_list_of_statements()
    ensures { (text : List ℕ) (a b : List (List Lexeme)) → IsStatements text a → IsStatements text b
        → a ≡ b }
{}

/// The statements of a text whose tokens are known.
pub fn statements_come_from_tokens()
    ensures { (text : List ℕ) (tokens : List Token) (list : List (List Token))
        → lexed text ≡ (tokens, None) → parts tokens ≡ map (λ ts. (ts, true)) list
        → IsStatements text (map (lexemes_of text) list) }
{}

/// Statements that are written one after the other, lexeme by lexeme, stand in canonical layout.
pub fn what_is_written_is_in_layout()
    ensures lexemes { (text : List ℕ) (lexemes : List Lexeme)
        → (puts (whole text) lexemes).text ≡ text ++ spaced lexemes }
    ensures statement { (text : List ℕ) (statement : List Lexeme)
        → ended (puts (whole text) statement) ≡ whole (text ++ line statement) }
    ensures text { (text : List ℕ) (statements : List (List Lexeme))
        → lines (whole text) statements ≡ whole (text ++ layout statements) }
{}

/// What it comes to that lexemes and statements are written one after the other.
pub fn writing_goes_on()
    ensures none { (w : Written) → puts w [] ≡ w }
    ensures more { (w : Written) (x : Lexeme) (xs : List Lexeme)
        → puts w (x ∷ xs) ≡ puts (put w x) xs }
    ensures append { (w : Written) (xs ys : List Lexeme) → puts w (xs ++ ys) ≡ puts (puts w xs) ys }
    ensures no_lines { (w : Written) → lines w [] ≡ w }
    ensures more_lines { (w : Written) (statement : List Lexeme) (later : List (List Lexeme))
        → lines w (statement ∷ later) ≡ lines (ended (puts w statement)) later }
    ensures append_lines { (w : Written) (early later : List (List Lexeme))
        → lines w (early ++ later) ≡ lines (lines w early) later }
{}

/// Parts with a lexeme between two are the first, and then each later one behind that lexeme.
pub fn joined_parts_go_on()
    ensures { (between : Lexeme) (first : List Lexeme) (later : List (List Lexeme))
        → joined_by between (first ∷ later) ≡ first ++ flat_map (λ part. between ∷ part) later }
{}

/// The layout of statements is read as these statements, thus also the layout of those of any text.
pub fn layout_is_read_back()
    ensures any { (statements : List (List Lexeme)) → Every (Every IsLexeme) statements
        → IsStatements (layout statements) statements }
    ensures again { (text : List ℕ) (statements : List (List Lexeme)) → IsStatements text statements
        → IsStatements (layout statements) statements }
{}

/// The statements of any text are of lexemes that can be laid out.
pub fn statements_can_be_laid_out()
    ensures { (text : List ℕ) (statements : List (List Lexeme)) → IsStatements text statements
        → Every (Every IsLexeme) statements }
{}

/// A comment on a line of its own before a layout makes no difference.
pub fn comments_make_no_difference()
    ensures { (line : List ℕ) (statements : List (List Lexeme)) → AllPass in_comment line
        → Every (Every IsLexeme) statements → IsStatements (commented line (layout statements))
        statements }
{}

/// What is read from the front of a list of lexemes stood there, and nothing else is read.
pub fn readers_read()
    ensures the_word { (wanted : List ℕ) (lexemes rest : List Lexeme)
        → (the_word wanted lexemes ≡ Some (tt, rest)) ↔ (lexemes ≡ Word wanted ∷ rest) }
    ensures the_symbol { (wanted : List ℕ) (lexemes rest : List Lexeme)
        → (the_symbol wanted lexemes ≡ Some (tt, rest)) ↔ (lexemes ≡ Symbol wanted ∷ rest) }
    ensures a_word { (lexemes rest : List Lexeme) (bytes : List ℕ)
        → (a_word lexemes ≡ Some (bytes, rest)) ↔ (lexemes ≡ Word bytes ∷ rest) }
    ensures a_number { (lexemes rest : List Lexeme) (n : ℕ) → (a_number lexemes ≡ Some (n, rest))
        ↔ (lexemes ≡ Number n ∷ rest) }
    ensures a_text { (lexemes rest : List Lexeme) (bytes : List ℕ)
        → (a_text lexemes ≡ Some (bytes, rest)) ↔ (lexemes ≡ Text bytes ∷ rest) }
{}

/// The parts of a text's tokens are its statements. They are tokens of the text, and there are no
/// more of them than bytes.
pub fn statements_are_parts()
    ensures said { (source : List ℕ) (tokens : List Token) → AreTokens source tokens
        → statements_in source ≡ map (part_said source) (parts tokens) }
    ensures tokens { (source : List ℕ) (tokens : List Token) → AreTokens source tokens
        → Every (IsPartOf source) (parts tokens) }
    ensures count { (source : List ℕ) (tokens : List Token) → AreTokens source tokens
        → length (parts tokens) ≤ length source }
{}

/// The tokens that stand in a text are its own, also where a byte begins none or brackets nest too
/// deep, and so are those of its statements.
pub fn texts_have_their_tokens()
    ensures tokens { (source : List ℕ) → AreTokensOf source (lexed source).0 }
    ensures parts { (source : List ℕ) → Every (IsPartOf source) (parts (lexed source).0) }
{}

/// A text of short statements that open few brackets has no fault of its tokens.
pub fn shallow_statements_have_no_fault()
    ensures { (text : List ℕ) (statements : List (List Lexeme)) → IsStatements text statements
        → Every IsShallow statements → fault_of text ≡ None }
{}
