// The laws of the definitions, each the clause of a function that does nothing.

ghost use Rattle.std.specs.Prelude.{ℕ, List};
ghost use Rattle.std.specs.List.{AllPass};
ghost use Rattle.sb_text.specs.Front.{in_comment};
ghost use Rattle.star_model.specs.Every.{Every};
ghost use Rattle.spelling.specs.Layout.{line, commented};
ghost use Rattle.derivation_reading.specs.Derivations.{canonical, steps, NamesWord, IsWritable, SpellsDerivation};
ghost use Rattle.rule_grammar.specs.Rules.{SpellsRules, KeepsCounts};
ghost use Rattle.star_model.specs.WellFormed.{WellFormedQuery};
ghost use Rattle.star_model.specs.Derivations.{IsRoot};
ghost use Rattle.star_model.specs.declared.plans.Props.{Props};
ghost use Rattle.star_model.specs.declared.query.Query.{Query};
ghost use Rattle.star_model.specs.declared.derivations.Deriv.{Deriv};
ghost use Rattle.star_model.specs.declared.rules.RuleFile.{RuleFile};

/// A root derivation of a rule file that a text spells can be written, where no STAR has more
/// alternatives than a derivation can name and no alternative more than two for-all clauses. So its
/// canonical text spells it, behind a comment too.
pub fn root_derivations_are_written()
    ensures writable { (q : Query) (rules : RuleFile) → WellFormedQuery q → (text : List ℕ)
        → SpellsRules text rules → KeepsCounts rules → (tree : Deriv) (v : Props)
        → IsRoot q rules tree v → IsWritable tree × Every NamesWord (steps tree) }
    ensures spelled { (q : Query) (rules : RuleFile) → WellFormedQuery q → (text : List ℕ)
        → SpellsRules text rules → KeepsCounts rules → (tree : Deriv) (v : Props)
        → IsRoot q rules tree v → (line : List ℕ) → AllPass in_comment line
        → SpellsDerivation (commented line (canonical tree)) tree }
{}
