// The laws of the definitions, each the clause of a function that does nothing.

ghost use Rattle.std.specs.Prelude.{◌≡◌, ◌↔◌, ◌+◌, ◌≤◌, List, [], length, Some, true, codes};
ghost use Rattle.spelling.specs.Lexemes.{Lexeme, Word};
ghost use Rattle.star_model.specs.Every.{Every};
ghost use Rattle.spelling.specs.Limits.{HasGreatNumber};
ghost use Rattle.spelling.specs.Layout.{IsLexeme};
ghost use Rattle.cost_formula.specs.declared.formula_word.FormulaWord.{FormulaWord};
ghost use Rattle.cost_formula.specs.FormulaGrammar.{Spells, Whole};
ghost use Rattle.cost_formula.specs.FormulaReading.{whole_at};
ghost use Rattle.cost_formula.specs.Formulas.{SpellsIn, SpellsFormula, SpellsSelect, formula_lexemes};
ghost use Rattle.star_model.specs.Monotone.{nodes};
ghost use Rattle.star_model.specs.WellFormedRules.{names_only, is_of_cost, is_of_selectivity};
ghost use Rattle.star_model.specs.declared.formula.Formula.{Formula};
ghost use Rattle.star_model.specs.declared.formula.Var.{Var};

/// One list of lexemes spells at most one formula over the same variables.
pub fn one_formula()
    ensures { (variables : List Var) (lexemes : List Lexeme) (x y : Formula)
        → SpellsIn variables lexemes x → SpellsIn variables lexemes y → x ≡ y }
{}

/// What is read of all the words is the formula that they spell, and nothing else is read.
pub fn formulas_are_read()
    ensures { (words : List FormulaWord) (x : Formula)
        → (whole_at (length words + 1) words ≡ Some (x, [])) ↔ Spells Whole words x }
{}

/// A formula has no more nodes than the lexemes that spell it.
pub fn formulas_have_few_nodes()
    ensures { (variables : List Var) (lexemes : List Lexeme) (x : Formula)
        → SpellsIn variables lexemes x → length (nodes x) ≤ length lexemes }
{}

/// Where a number beyond the greatest stands in the spelling of a formula with the fewest brackets,
/// one stands in each.
pub fn great_numbers_are_in_each_spelling()
    ensures { (variables : List Var) (lexemes : List Lexeme) (x : Formula)
        → SpellsIn variables lexemes x → HasGreatNumber (formula_lexemes x)
        → HasGreatNumber lexemes }
{}

/// A spelled formula names only variables of its kind of formula.
pub fn formulas_name_their_variables()
    ensures costs { (lexemes : List Lexeme) (x : Formula) → SpellsFormula lexemes x
        → names_only is_of_cost x ≡ true }
    ensures selectivities { (lexemes : List Lexeme) (x : Formula) → SpellsSelect lexemes x
        → names_only is_of_selectivity x ≡ true }
{}

/// The word `per` stands in no formula, so that it parts two of them.
pub fn per_stands_in_no_formula()
    ensures costs { (lexemes : List Lexeme) (x : Formula) → SpellsFormula lexemes x
        → Every (λ l. l ≡ Word (codes "per") → ⊥) lexemes }
    ensures selectivities { (lexemes : List Lexeme) (x : Formula) → SpellsSelect lexemes x
        → Every (λ l. l ≡ Word (codes "per") → ⊥) lexemes }
{}

/// What is written with the fewest brackets spells its formula, and can be laid out.
pub fn fewest_brackets_spell()
    ensures spelled { (x : Formula) → names_only is_of_cost x ≡ true
        → SpellsFormula (formula_lexemes x) x }
    ensures selectivities { (x : Formula) → names_only is_of_selectivity x ≡ true
        → SpellsSelect (formula_lexemes x) x }
    ensures formed { (variables : List Var) (lexemes : List Lexeme) (x : Formula)
        → SpellsIn variables lexemes x → Every IsLexeme lexemes
        → Every IsLexeme (formula_lexemes x) }
{}

/// What has a spelling is spelled with the fewest brackets too.
pub fn spelled_formulas_are_spelled_with_the_fewest_brackets()
    ensures costs { (lexemes : List Lexeme) (x : Formula) → SpellsFormula lexemes x
        → SpellsFormula (formula_lexemes x) x }
    ensures selectivities { (lexemes : List Lexeme) (x : Formula) → SpellsSelect lexemes x
        → SpellsSelect (formula_lexemes x) x }
{}
