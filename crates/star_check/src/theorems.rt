// The laws of the check, each the clause of a function that does nothing.

ghost use Rattle.std.specs.Prelude.{◌≡◌, ℕ, ◌^◌, ◌<◌, ◌≤◌, ◌⊎◌, true, false, nat_lt, List, [], Option, Some, length, map, codes, Contains};
ghost use Rattle.std.specs.List.{list_any};
ghost use Rattle.star_model.specs.Limits.{most_height, most_nesting};
ghost use Rattle.star_model.specs.Accepted.{IsAccepted, IsRefusedBy, Reaches, is_access_root, glues_in, bodies_of, kinds_of, alternative_has_kinds, height_of, occurs, references_of};
ghost use Rattle.star_model.specs.AskedGoals.{Below, Leads, Asks, AskedGoal};
ghost use Rattle.star_model.specs.Expected.{Expected, Expression, ForGoal, may_split, root_call};
ghost use Rattle.star_model.specs.Goals.{IsGoal};
ghost use Rattle.star_model.specs.Meaning.{meaning, as_stream};
ghost use Rattle.star_model.specs.declared.rules.PlanExpr.{PlanExpr};
ghost use Rattle.star_model.specs.declared.rules.PlanExpr.TheVariants.{Glue};
ghost use Rattle.star_model.specs.Sets.{size, is_within};
ghost use Rattle.star_model.specs.Stars.{star_named};
ghost use Rattle.star_model.specs.WellFormed.{WellFormedQuery};
ghost use Rattle.star_model.specs.declared.query.Query.{Query};
ghost use Rattle.star_model.specs.declared.rules.ValueExpr.{ValueExpr};
ghost use Rattle.star_model.specs.declared.values.RuleValue.{RuleValue};
ghost use Rattle.star_model.specs.declared.faults.RuleFault.{RuleFault};
ghost use Rattle.star_model.specs.declared.rules.Alternative.{Alternative};
ghost use Rattle.star_model.specs.declared.rules.RuleFile.{RuleFile};
ghost use Rattle.star_model.specs.declared.rules.StarDef.{StarDef};
ghost use Rattle.star_model.specs.WellFormedRules.{WellFormedRules, nesting};
ghost use Rattle.star_check.specs.Heights.{height_named, refers_below};
ghost use Rattle.star_check.specs.SoundPlaces.{may_read, IsSound};

/// Exactly one holds of each file: it is accepted, or it is refused by one fault.
pub fn one_answer()
    ensures one { (rules : RuleFile) (f g : RuleFault) → WellFormedRules rules → IsRefusedBy rules f
        → IsRefusedBy rules g → f ≡ g }
    ensures some { (rules : RuleFile) → WellFormedRules rules → IsAccepted rules
        ⊎ ((f : RuleFault) × IsRefusedBy rules f) }
    ensures apart { (rules : RuleFile) (f : RuleFault) → IsAccepted rules → IsRefusedBy rules f
        → ⊥ }
{}

/// In an accepted file each value has the kind that its place asks, no STAR of accesses calls Glue,
/// at most 16 STARs stand one above the other, and operators, references and Glue stand at most 8
/// deep in one another.
pub fn accepted_files_are_sound()
    ensures kinds { (rules : RuleFile) (s : StarDef) (a : Alternative) → IsAccepted rules
        → Contains rules.stars s → Contains s.alternatives a
        → alternative_has_kinds rules (kinds_of rules s) a ≡ true }
    ensures glue { (rules : RuleFile) (s : StarDef) → IsAccepted rules → Contains rules.stars s
        → (is_access_root rules s ≡ true) ⊎ Reaches rules (codes "AccessRoot") s.name
        → list_any (λ b. nat_lt 0 (length (glues_in b))) (bodies_of s) ≡ false }
    ensures low { (rules : RuleFile) (s : StarDef) → IsAccepted rules → Contains rules.stars s
        → height_of rules s ≤ most_height }
    ensures shallow { (rules : RuleFile) (s : StarDef) (a : Alternative) → WellFormedRules rules
        → Contains rules.stars s → Contains s.alternatives a → nesting a.body ≤ most_nesting }
{}

/// In an accepted file a STAR refers to lower STARs only. Each is the one of its name, and at least
/// 1 high.
pub fn references_go_down()
    ensures bodies { (rules : RuleFile) (name : List ℕ) (s : StarDef) (a : Alternative)
        → IsAccepted rules → star_named rules name ≡ Some s → Contains s.alternatives a
        → refers_below rules (height_of rules s) a.body ≡ true }
    ensures stars { (rules : RuleFile) (s t : StarDef) → IsAccepted rules
        → star_named rules s.name ≡ Some s → occurs rules t.name (map (λ r. r.0) (references_of s))
        ≡ true → height_of rules t < height_of rules s }
    ensures named { (rules : RuleFile) (name : List ℕ) (s : StarDef)
        → star_named rules name ≡ Some s → height_of rules s ≡ height_named rules name }
    ensures own { (rules : RuleFile) (s : StarDef) → WellFormedRules rules → IsAccepted rules
        → Contains rules.stars s → star_named rules s.name ≡ Some s }
    ensures some { (rules : RuleFile) (s : StarDef) → IsAccepted rules → Contains rules.stars s
        → 1 ≤ height_of rules s }
{}

/// In an accepted file each place to which a goal leads is sound: what is called is there, the
/// values have their kinds, and each stream has some of the goal's quantifiers, and fewer than all
/// where the goal has several.
pub fn goals_lead_to_sound_places()
    ensures root { (rules : RuleFile) → IsAccepted rules → (s j : ℕ) (split : Option (ℕ × ℕ))
        → 0 < s → s < 2 ^ 32 → may_split s split ≡ true → IsSound rules s (root_call s j split) }
    ensures below { (rules : RuleFile) → IsAccepted rules → (q : Query) (s : ℕ) (x y : Expected)
        → Below q rules x y → IsSound rules s x → IsSound rules s y }
    ensures all { (rules : RuleFile) → IsAccepted rules → (q : Query) (s j : ℕ) (x : Expected)
        → IsGoal q s j → Leads q rules (ForGoal s j) x → IsSound rules s x }
    ensures glue { (rules : RuleFile) → IsAccepted rules
        → (q : Query) (s : ℕ) (stream preds : ValueExpr) (b : List RuleValue)
        → IsSound rules s (Expression (Glue stream preds) b)
        → may_read s (as_stream (meaning q b stream)).tables ≡ true }
    ensures further { (q : Query) (rules : RuleFile) (x y z : Expected) → Leads q rules x y
        → Below q rules y z → Leads q rules x z }
{}

/// In an accepted file a goal asks only for goals of fewer quantifiers, and one of one quantifier
/// leads to no Glue. So the goals that a query asks for are goals.
pub fn goals_ask_for_smaller_goals()
    ensures smaller { (q : Query) (rules : RuleFile) → IsAccepted rules → (s j t k : ℕ)
        → IsGoal q s j → Asks q rules s j t k
        → (0 < t) × (is_within t s ≡ true) × (size t < size s) }
    ensures goals { (q : Query) (rules : RuleFile) → IsAccepted rules → (s j t k : ℕ) → IsGoal q s j
        → Asks q rules s j t k → IsGoal q t k }
    ensures one { (q : Query) (rules : RuleFile) → IsAccepted rules
        → (s j : ℕ) (e : PlanExpr) (b : List RuleValue)
        → Leads q rules (ForGoal s j) (Expression e b) → size s ≡ 1 → glues_in e ≡ [] }
    ensures asked { (q : Query) (rules : RuleFile) → IsAccepted rules → WellFormedQuery q
        → (t k : ℕ) → AskedGoal q rules t k → IsGoal q t k }
{}
