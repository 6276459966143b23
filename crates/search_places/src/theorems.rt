// The laws of places, each the clause of a function that does nothing.

ghost use Rattle.std.specs.Prelude.{◌≡◌, ℕ, ◌+◌, ◌<◌, ◌≤◌, List as Seq, [], ◌∷◌, ◌++◌, Option, Some, true, length, slice_get, map, Contains};
ghost use Rattle.star_model.specs.Limits.{most_alternatives};
ghost use Rattle.star_model.specs.Accepted.{IsAccepted};
ghost use Rattle.star_model.specs.Expected.{Call, Expression, may_split, root_call, values_of, meets};
ghost use Rattle.star_model.specs.Goals.{IsGoal};
ghost use Rattle.star_model.specs.Meaning.{numbers_of, member_at};
ghost use Rattle.star_model.specs.Stars.{star_named, alternative_of};
ghost use Rattle.star_model.specs.declared.query.Query.{Query};
ghost use Rattle.star_model.specs.declared.rules.Alternative.{Alternative};
ghost use Rattle.star_model.specs.declared.rules.Flavour.{Flavour};
ghost use Rattle.star_model.specs.declared.rules.ForAll.{ForAll};
ghost use Rattle.star_model.specs.declared.rules.PlanExpr.{PlanExpr};
ghost use Rattle.star_model.specs.declared.rules.PlanExpr.TheVariants as made;
ghost use Rattle.star_model.specs.declared.rules.RuleFile.{RuleFile};
ghost use Rattle.star_model.specs.declared.rules.StarDef.{StarDef};
ghost use Rattle.star_model.specs.declared.rules.ValueExpr.{ValueExpr};
ghost use Rattle.star_model.specs.declared.values.RuleValue.{RuleValue};
ghost use Rattle.star_model.specs.WellFormedRules.{WellFormedRules};
ghost use Rattle.lolepop.specs.Derived.{DerivedPlan};
ghost use Rattle.shared_sets.specs.Tables.{kept_for, glued_for};
ghost use Rattle.shared_sets.specs.declared.glued_sets.GlueRequest.{GlueRequest};
ghost use Rattle.shared_sets.specs.declared.ref_table.StarCall.{StarCall};
ghost use Rattle.exchange.specs.Places.{IsBestOf};
ghost use Rattle.search_places.specs.declared.search.Search.{Search};
ghost use Rattle.search_places.specs.Roots.{root_of_split};
ghost use Rattle.star_value.specs.Roots.{root_values};
ghost use Rattle.search_places.specs.Searching.{LeadsTo, IsWithin, work_at, work_in};
ghost use Rattle.search_places.specs.Shared.{IsGlued, HoldsReferences, HoldsGlued};

/// A place to which the goal leads is left for one with less work, to which the goal leads too: an
/// input of an expression, the STAR to which a reference refers, a body of a STAR.
pub fn searches_go_down()
    ensures inputs { (s : Search) (e : PlanExpr) (f : Flavour) (args : Seq ValueExpr)
        (input part : PlanExpr) (b : Seq RuleValue) → e ≡ made.Unary f args input → part ≡ input
        → LeadsTo s (Expression e b) → (work_at s.rules.now part < work_at s.rules.now e)
        × LeadsTo s (Expression part b) }
    ensures lefts { (s : Search) (e : PlanExpr) (f : Flavour) (args : Seq ValueExpr)
        (left right part : PlanExpr) (b : Seq RuleValue) → e ≡ made.Binary f args left right
        → part ≡ left → LeadsTo s (Expression e b)
        → (work_at s.rules.now part < work_at s.rules.now e) × LeadsTo s (Expression part b) }
    ensures rights { (s : Search) (e : PlanExpr) (f : Flavour) (args : Seq ValueExpr)
        (left right part : PlanExpr) (b : Seq RuleValue) → e ≡ made.Binary f args left right
        → part ≡ right → LeadsTo s (Expression e b)
        → (work_at s.rules.now part < work_at s.rules.now e) × LeadsTo s (Expression part b) }
    ensures references { (s : Search) (e : PlanExpr) (star : Seq ℕ) (args : Seq ValueExpr)
        (b values : Seq RuleValue) → e ≡ made.Reference star args
        → values ≡ values_of s.query.now b args → LeadsTo s (Expression e b)
        → (work_in s.rules.now star 9 < work_at s.rules.now e) × LeadsTo s (Call star values) }
    ensures bodies { (rules : RuleFile) (star : Seq ℕ) (n : ℕ) (a : Alternative)
        → WellFormedRules rules → IsAccepted rules → alternative_of rules star n ≡ Some a
        → work_at rules a.body < work_in rules star 0 }
{}

/// The goal leads to the root STAR of each of its splits; a call of a STAR leads into each
/// alternative; there the next for-all name may be bound to each member of its range; and where all
/// are bound and the condition holds, to the body.
pub fn goals_lead_into_bodies()
    ensures roots { (s : Search) (split : Option (ℕ × ℕ)) → may_split s.goal.tables split ≡ true
        → LeadsTo s (Call (root_of_split split) (root_values s.goal.tables s.goal.pushed split)) }
    ensures root_calls { (s j : ℕ) (split : Option (ℕ × ℕ))
        → root_call s j split ≡ Call (root_of_split split) (root_values s j split) }
    ensures alternatives { (s : Search) (star : Seq ℕ) (b : Seq RuleValue) (d : StarDef) (i : ℕ)
        (a : Alternative) → WellFormedRules s.rules.now → IsAccepted s.rules.now
        → IsGoal s.query.now s.goal.tables s.goal.pushed → LeadsTo s (Call star b)
        → star_named s.rules.now star ≡ Some d → slice_get d.alternatives i ≡ Some a
        → IsWithin s star (i + 1) a a.ranges [] b }
    ensures names { (s : Search) (star : Seq ℕ) (n : ℕ) (a : Alternative) (f : ForAll)
        (fs : Seq ForAll) (picked : Seq ℕ) (c : Seq RuleValue)
        → IsWithin s star n a (f ∷ fs) picked c → (m : ℕ)
        → Contains (numbers_of s.query.now c f.range) m
        → IsWithin s star n a fs (picked ++ (m + 1) ∷ []) (c ++ member_at f.range m ∷ []) }
    ensures members { (s : Search) (star : Seq ℕ) (n : ℕ) (a : Alternative) (f : ForAll)
        (fs : Seq ForAll) (picked : Seq ℕ) (c : Seq RuleValue)
        → IsWithin s star n a (f ∷ fs) picked c
        → (seen left later : Seq (ℕ × RuleValue)) (m : ℕ) (v : RuleValue) (numbers : Seq ℕ)
        (next : Seq RuleValue) → map (λ m. (m, member_at f.range m))
        (numbers_of s.query.now c f.range) ≡ seen ++ left → left ≡ (m, v) ∷ later
        → numbers ≡ picked ++ (m + 1) ∷ [] → next ≡ c ++ v ∷ []
        → IsWithin s star n a fs numbers next }
    ensures bodies { (s : Search) (star : Seq ℕ) (n : ℕ) (a : Alternative) (picked : Seq ℕ)
        (c : Seq RuleValue) → IsWithin s star n a [] picked c
        → meets s.query.now c a.condition ≡ true → LeadsTo s (Expression a.body c) }
{}

/// A STAR has at most 16 alternatives, and a reference to which a goal leads has at most 8
/// arguments.
pub fn places_are_small()
    ensures alternatives { (rules : RuleFile) (star : Seq ℕ) (d : StarDef) → WellFormedRules rules
        → star_named rules star ≡ Some d → length d.alternatives ≤ most_alternatives }
    ensures arguments { (s : Search) (e : PlanExpr) (star : Seq ℕ) (args : Seq ValueExpr)
        (b : Seq RuleValue) → WellFormedRules s.rules.now → IsAccepted s.rules.now
        → IsGoal s.query.now s.goal.tables s.goal.pushed → e ≡ made.Reference star args
        → LeadsTo s (Expression e b) → length args ≤ 8 }
{}

/// Tables begin with nothing, which is no wrong set. What is found in tables of right sets is
/// right, and they stay so when a right set is added.
pub fn tables_stay_right()
    ensures no_references { (q : Query) (rules : RuleFile)
        (table : Seq (StarCall × Seq DerivedPlan)) → table ≡ [] → HoldsReferences q rules table }
    ensures none_glued { (q : Query) (rules : RuleFile)
        (table : Seq (GlueRequest × Seq DerivedPlan)) → table ≡ [] → HoldsGlued q rules table }
    ensures found { (q : Query) (rules : RuleFile) (table : Seq (StarCall × Seq DerivedPlan))
        (star : Seq ℕ) (env : Seq RuleValue) (plans : Seq DerivedPlan)
        → HoldsReferences q rules table → Some plans ≡ kept_for table star env
        → IsBestOf q rules (Call star env) plans }
    ensures found_glued { (q : Query) (rules : RuleFile)
        (table : Seq (GlueRequest × Seq DerivedPlan)) (r : GlueRequest) (plans : Seq DerivedPlan)
        → HoldsGlued q rules table → Some plans ≡ glued_for table r → IsGlued q rules r plans }
    ensures kept { (q : Query) (rules : RuleFile) (old new : Seq (StarCall × Seq DerivedPlan))
        (star : Seq ℕ) (env : Seq RuleValue) (plans : Seq DerivedPlan) → HoldsReferences q rules old
        → IsBestOf q rules (Call star env) plans
        → new ≡ old ++ (record { star = star; env = env }, plans) ∷ []
        → HoldsReferences q rules new }
    ensures put { (q : Query) (rules : RuleFile) (old new : Seq (GlueRequest × Seq DerivedPlan))
        (r : GlueRequest) (plans : Seq DerivedPlan) → HoldsGlued q rules old
        → IsGlued q rules r plans → new ≡ old ++ (r, plans) ∷ [] → HoldsGlued q rules new }
{}
