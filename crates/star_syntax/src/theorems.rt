// The laws of the definitions, each the clause of a function that does nothing.

ghost use Rattle.std.specs.Prelude.{◌≡◌, ◌⊎◌, ℕ, List, None};
ghost use Rattle.sb_text.specs.Refusal.{fault_of};
ghost use Rattle.star_model.specs.declared.faults.RuleFault.{RuleFault};
ghost use Rattle.star_model.specs.declared.rules.RuleFile.{RuleFile};
ghost use Rattle.spelling.specs.Firsts.{NoneHas};
ghost use Rattle.rule_grammar.specs.Rules.{SpellsRules};
ghost use Rattle.rule_grammar.specs.RuleLimits.{RuleStatement, SaysRules, IsBeyond, KeepsLexemeLimits};
ghost use Rattle.star_model.specs.WellFormedRules.{WellFormedRules};
ghost use Rattle.star_syntax.specs.Faults.{HasFault, IsFirstFault, IsRead};

/// One text has at most one first fault.
pub fn one_fault()
    ensures { (text : List ℕ) (f g : RuleFault) → IsFirstFault text f → IsFirstFault text g
        → f ≡ g }
{}

/// Each text has a verdict: it is read, or has a first fault.
pub fn some_verdict()
    ensures { (text : List ℕ) → ((rules : RuleFile) × IsRead text rules)
        ⊎ ((fault : RuleFault) × IsFirstFault text fault) }
{}

/// One text says at most one list of statements.
pub fn one_list_of_statements()
    ensures { (text : List ℕ) (a b : List RuleStatement) → SaysRules text a → SaysRules text b
        → a ≡ b }
{}

/// A text has no fault whose tokens have none, and whose statements are understood and keep the
/// limits. What it spells is then well formed, and its words and numbers keep theirs.
pub fn statements_without_fault_are_read()
    ensures clear { (text : List ℕ) (statements : List RuleStatement) → fault_of text ≡ None
        → SaysRules text statements → NoneHas IsBeyond statements → (fault : RuleFault)
        → HasFault text fault → ⊥ }
    ensures formed { (text : List ℕ) (rules : RuleFile) (statements : List RuleStatement)
        → SpellsRules text rules → SaysRules text statements → NoneHas IsBeyond statements
        → WellFormedRules rules }
    ensures fits { (text : List ℕ) (rules : RuleFile) (statements : List RuleStatement)
        → SpellsRules text rules → SaysRules text statements → NoneHas IsBeyond statements
        → KeepsLexemeLimits rules }
{}
