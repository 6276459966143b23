// The laws of the definitions, each the clause of a function that does nothing.

ghost use Rattle.std.specs.Prelude.{◌≡◌, ◌↔◌, ◌+◌, ◌<◌, ℕ, true, List, ◌∷◌, ◌++◌, length, codes, Some};
ghost use Rattle.spelling.specs.Lexemes.{Lexeme, Word, IsStatements, equals};
ghost use Rattle.rule_grammar.specs.Rules.{canonical, alternative_lexemes, parameter_lexemes, SpellsStar, SpellsFormulaDef, SpellsSelectDef, formula_def_lexemes, select_def_lexemes, rule_lexemes, SpellsRules};
ghost use Rattle.star_model.specs.WellFormedRules.{Scope, IsName, names_only, is_of_cost, is_of_selectivity, IsValue, IsRange, IsCondition, IsAlternative};
ghost use Rattle.rule_grammar.specs.Values.{value_lexemes, range_lexemes, condition_lexemes};
ghost use Rattle.rule_grammar.specs.ValueReading.{value_at, range_at, NoSquare};
ghost use Rattle.rule_grammar.specs.ConditionReading.{condition_at};
ghost use Rattle.rule_grammar.specs.StarReading.{for_all_at, alternative_at, parameter_at, star_of};
ghost use Rattle.star_model.specs.FlavourWords.{which_word, flavour_word, class_word, is_flavour_of};
ghost use Rattle.rule_grammar.specs.FormulaHeads.{FormulaHead, formula_head_at};
ghost use Rattle.rule_grammar.specs.SelectHeads.{select_head_at, parted_at_per};
ghost use Rattle.star_model.specs.Every.{Every};
ghost use Rattle.rule_grammar.specs.Tiny.{tiny_lexemes, tiny_rules};
ghost use Rattle.star_model.specs.declared.rules.ValueExpr.{ValueExpr};
ghost use Rattle.star_model.specs.declared.rules.Range.{Range};
ghost use Rattle.star_model.specs.declared.rules.Condition.{Condition};
ghost use Rattle.star_model.specs.declared.rules.RuleFile.{RuleFile};
ghost use Rattle.star_model.specs.declared.rules.ForAll.{ForAll};
ghost use Rattle.star_model.specs.declared.rules.Alternative.{Alternative};
ghost use Rattle.star_model.specs.declared.rules.Param.{Param};
ghost use Rattle.star_model.specs.declared.rules.StarDef.{StarDef};
ghost use Rattle.star_model.specs.declared.rules.FormulaDef.{FormulaDef};
ghost use Rattle.star_model.specs.declared.rules.SelectDef.{SelectDef};
ghost use Rattle.star_model.specs.declared.rules.Class.{Class};

/// One text spells at most one rule file, and so does each of its statements.
pub fn one_rule_file()
    ensures text { (text : List ℕ) (a b : RuleFile) → SpellsRules text a → SpellsRules text b
        → a ≡ b }
    ensures star { (version n : ℕ) (lexemes : List Lexeme) (s t : StarDef)
        → SpellsStar version n lexemes s → SpellsStar version n lexemes t → s ≡ t }
    ensures formula { (version n : ℕ) (lexemes : List Lexeme) (d f : FormulaDef)
        → SpellsFormulaDef version n lexemes d → SpellsFormulaDef version n lexemes f → d ≡ f }
    ensures selectivity { (version n : ℕ) (lexemes : List Lexeme) (d e : SelectDef)
        → SpellsSelectDef version n lexemes d → SpellsSelectDef version n lexemes e → d ≡ e }
{}

/// Where some text spells a rule file, so does each text with its own statements in the order of
/// their numbers.
pub fn rule_files_are_written()
    ensures { (text : List ℕ) (rules : RuleFile) → SpellsRules text rules → (other : List ℕ)
        → IsStatements other (rule_lexemes rules) → SpellsRules other rules }
{}

/// A spelled value is read where enough may be open inside one another and no square bracket
/// follows, and nothing else is read.
pub fn values_are_read()
    ensures read { (scope : Scope) (n : ℕ) (v : ValueExpr) (rest : List Lexeme) → IsValue scope v
        → length (value_lexemes v) < n → NoSquare rest
        → value_at scope n (value_lexemes v ++ rest) ≡ Some (v, rest) }
    ensures spelled { (scope : Scope) (n : ℕ) (lexemes : List Lexeme) (v : ValueExpr)
        (rest : List Lexeme) → value_at scope n lexemes ≡ Some (v, rest)
        → (lexemes ≡ value_lexemes v ++ rest) × IsValue scope v }
{}

/// A spelled range is read where enough values may be open inside one another, and nothing else is
/// read.
pub fn ranges_are_read()
    ensures read { (scope : Scope) (n : ℕ) (r : Range) (rest : List Lexeme) → IsRange scope r
        → length (range_lexemes r) < n → range_at scope n (range_lexemes r ++ rest)
        ≡ Some (r, rest) }
    ensures spelled { (scope : Scope) (n : ℕ) (lexemes : List Lexeme) (r : Range)
        (rest : List Lexeme) → range_at scope n lexemes ≡ Some (r, rest)
        → (lexemes ≡ range_lexemes r ++ rest) × IsRange scope r }
{}

/// A spelled condition is read where enough values and conditions may be open inside one another,
/// and nothing else is read.
pub fn conditions_are_read()
    ensures read { (scope : Scope) (n : ℕ) (c : Condition) (rest : List Lexeme)
        → IsCondition scope c → length (condition_lexemes c) < n
        → condition_at scope n (condition_lexemes c ++ rest) ≡ Some (c, rest) }
    ensures spelled { (scope : Scope) (n : ℕ) (lexemes : List Lexeme) (c : Condition)
        (rest : List Lexeme) → condition_at scope n lexemes ≡ Some (c, rest)
        → (lexemes ≡ condition_lexemes c ++ rest) × IsCondition scope c }
{}

/// What is read of all of a statement's lexemes is the STAR that they spell, and nothing else is
/// read.
pub fn stars_are_read()
    ensures { (version n : ℕ) (lexemes : List Lexeme) (s : StarDef)
        → (star_of version n lexemes ≡ Some s) ↔ SpellsStar version n lexemes s }
{}

/// What is read as a part of a STAR is spelled so: a for-all clause behind its first word, an
/// alternative, a parameter.
pub fn parts_of_stars_are_read()
    ensures for_all { (scope : Scope) (depth : ℕ) (lexemes : List Lexeme) (f : ForAll)
        (rest : List Lexeme) → for_all_at scope depth lexemes ≡ Some (f, rest)
        → (lexemes ≡ Word f.name ∷ Word (codes "in") ∷ (range_lexemes f.range ++ rest))
        × IsName scope.version f.name × IsRange scope f.range }
    ensures alternative { (parameters : Scope) (depth : ℕ) (lexemes : List Lexeme) (a : Alternative)
        (rest : List Lexeme) → alternative_at parameters depth lexemes ≡ Some (a, rest)
        → (lexemes ≡ alternative_lexemes a ++ rest) × IsAlternative parameters a }
    ensures parameter { (version : ℕ) (lexemes : List Lexeme) (p : Param) (rest : List Lexeme)
        → parameter_at version lexemes ≡ Some (p, rest)
        → (lexemes ≡ parameter_lexemes p ++ rest) × IsName version p.name }
{}

/// The head of a formula's statement is read as it is spelled, and nothing else is read.
pub fn formula_heads_are_read()
    ensures { (version : ℕ) (lexemes : List Lexeme) (head : FormulaHead) (rest : List Lexeme)
        → (formula_head_at version lexemes ≡ Some (head, rest))
        ↔ (is_flavour_of version head.flavour ≡ true)
        × (lexemes ≡ Word (which_word head.which) ∷ Word (flavour_word head.flavour) ∷ equals
        ∷ rest) }
{}

/// The head of a selectivity's statement is read as it is spelled, and nothing else is read.
pub fn selectivity_heads_are_read()
    ensures { (lexemes : List Lexeme) (class : Class) (rest : List Lexeme)
        → (select_head_at lexemes ≡ Some (class, rest))
        ↔ (lexemes ≡ Word (codes "selectivity") ∷ Word (class_word class) ∷ equals ∷ rest) }
{}

/// What stands before `per` and behind it is found where none stands before, and nothing else is
/// found.
pub fn per_parts_formulas()
    ensures found { (num den : List Lexeme) → Every (λ l. l ≡ Word (codes "per") → ⊥) num
        → parted_at_per (num ++ Word (codes "per") ∷ den) ≡ Some (num, den) }
    ensures parts { (lexemes num den : List Lexeme) → parted_at_per lexemes ≡ Some (num, den)
        → lexemes ≡ num ++ Word (codes "per") ∷ den }
{}

/// What is written with the fewest brackets spells the statement that defines a formula or a
/// selectivity of the variables of its kind.
pub fn fewest_brackets_spell()
    ensures formula { (version : ℕ) (d : FormulaDef) → is_flavour_of version d.flavour ≡ true
        → names_only is_of_cost d.formula ≡ true
        → SpellsFormulaDef version d.statement (formula_def_lexemes d) d }
    ensures selectivity { (d : SelectDef) → names_only is_of_selectivity d.num ≡ true
        → names_only is_of_selectivity d.den ≡ true
        → SpellsSelectDef 2 d.statement (select_def_lexemes d) d }
{}

/// The canonical text of a rule file spells it where any text does.
pub fn canonical_rule_files_spell()
    ensures { (text : List ℕ) (rules : RuleFile) → SpellsRules text rules
        → SpellsRules (canonical rules) rules }
{}

/// What the smallest rule file that is accepted spells.
pub fn the_smallest_rule_file_is_spelled()
    ensures { (text : List ℕ) → IsStatements text tiny_lexemes → SpellsRules text tiny_rules }
{}
