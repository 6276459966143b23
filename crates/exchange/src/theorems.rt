// The laws of the definitions, each the clause of a function that does nothing.

ghost use Rattle.std.specs.Prelude.{◌≡◌, ℕ, ◌^◌, ◌<◌, ◌≤◌, ◌+◌, true, false, nat_eq, List as Seq, [], ◌∷◌, ◌++◌, Option, Some, None, AllPairs, Contains, ◌↔◌};
ghost use Rattle.star_model.specs.Accepted.{IsAccepted};
ghost use Rattle.star_model.specs.AskedGoals.{Asks};
ghost use Rattle.star_model.specs.Costs.{costs_of};
ghost use Rattle.star_model.specs.Derivations.{HasVector, IsRoot, IsLeast, OnFrontier};
ghost use Rattle.star_model.specs.Exchange.{CostsPass, HasCard};
ghost use Rattle.star_model.specs.Expected.{Expected, ForQuery, ForGoal, Call, Expression, glue_of, may_split, root_call, bound, meets, operator_of, values_of};
ghost use Rattle.star_model.specs.Meaning.{numbers_of, member_at};
ghost use Rattle.star_model.specs.Plans.{chain_vector};
ghost use Rattle.star_model.specs.Sets.{size, splits};
ghost use Rattle.star_model.specs.Stars.{alternative_of};
ghost use Rattle.star_model.specs.PlanExprCases as expr;
ghost use Rattle.star_model.specs.declared.rules.PlanExpr.TheVariants as made;
ghost use Rattle.star_model.specs.declared.derivations.Deriv.{Deriv};
ghost use Rattle.star_model.specs.declared.costs.CostEntry.{CostEntry};
ghost use Rattle.star_model.specs.declared.plans.GlueOp.{GlueOp};
ghost use Rattle.star_model.specs.declared.plans.Props.{Props};
ghost use Rattle.star_model.specs.declared.plans.Require.{Require};
ghost use Rattle.star_model.specs.declared.query.Query.{Query};
ghost use Rattle.star_model.specs.declared.rules.Alternative.{Alternative};
ghost use Rattle.star_model.specs.declared.rules.Flavour.{Flavour};
ghost use Rattle.star_model.specs.declared.rules.ForAll.{ForAll};
ghost use Rattle.star_model.specs.declared.rules.PlanExpr.{PlanExpr};
ghost use Rattle.star_model.specs.declared.rules.RuleFile.{RuleFile};
ghost use Rattle.star_model.specs.declared.rules.ValueExpr.{ValueExpr};
ghost use Rattle.star_model.specs.declared.values.RuleValue.{RuleValue};
ghost use Rattle.dominance_prune.specs.Gathering.{Gathers, From};
ghost use Rattle.lolepop.specs.Derived.{DerivedPlan, vector_of, is_better_plan, chained, GluesTo, AllFit};
ghost use Rattle.exchange.specs.Asking.{AsksFrom, AsksBelow};
ghost use Rattle.exchange.specs.Places.{IsDerived, IsBestOf, LeafWay, UnaryWay, BinaryWay, GlueWay, CallWay, BodyWay, BoundWay, RangesWay, SplitWay, GoalWay, OverOne, OverTwo, RefersTo, ReachesTo};

/// A derivation that has a vector at a place belongs to one derived plan, with that vector; its
/// rows are the estimate.
pub fn each_derivation_has_one_plan()
    ensures vector { (q : Query) (rules : RuleFile) (x : Expected) (e : DerivedPlan)
        → IsDerived q rules x e → HasVector q rules e.deriv x (vector_of e) }
    ensures some { (q : Query) (rules : RuleFile) (x : Expected) (d : Deriv) (v : Props)
        → HasVector q rules d x v → (e : DerivedPlan) × IsDerived q rules x e × (vector_of e ≡ v)
        × (e.deriv ≡ d) }
    ensures one { (q : Query) (rules : RuleFile) (x : Expected) (e f : DerivedPlan)
        → IsDerived q rules x e → IsDerived q rules x f → e.deriv ≡ f.deriv → e ≡ f }
    ensures rows { (q : Query) (rules : RuleFile) (x : Expected) (e : DerivedPlan)
        → IsDerived q rules x e → HasCard q (vector_of e) }
{}

/// What is derived where an operator is expected is what the operator makes of what is derived
/// where its inputs are.
pub fn operators_make_plans()
    ensures none { (q : Query) (rules : RuleFile) (f : Flavour) (args : Seq ValueExpr)
        (b : Seq RuleValue) (x : DerivedPlan)
        → IsDerived q rules (Expression (made.Leaf f args) b) x
        ↔ LeafWay q (costs_of rules) f args b x }
    ensures one { (q : Query) (rules : RuleFile) (f : Flavour) (args : Seq ValueExpr)
        (b : Seq RuleValue) (e : PlanExpr) (x : DerivedPlan)
        → IsDerived q rules (Expression (expr.Unary f args e) b) x ↔ UnaryWay q rules f args e b x }
    ensures two { (q : Query) (rules : RuleFile) (f : Flavour) (args : Seq ValueExpr)
        (b : Seq RuleValue) (d e : PlanExpr) (x : DerivedPlan)
        → IsDerived q rules (Expression (expr.Binary f args d e) b) x
        ↔ BinaryWay q rules f args d e b x }
{}

/// What is derived where Glue, a STAR or a goal is expected is what its chains, its alternatives or
/// its splits make of what is derived below. A STAR that is referred to is called with the values
/// of the arguments.
pub fn places_make_plans()
    ensures glue { (q : Query) (rules : RuleFile) (x y : Expected) (r : Require)
        → glue_of q x ≡ Some (r, y) → (e : DerivedPlan) → IsDerived q rules x e
        ↔ GlueWay q rules r y e }
    ensures call { (q : Query) (rules : RuleFile) (star : Seq ℕ) (b : Seq RuleValue)
        (x : DerivedPlan) → IsDerived q rules (Call star b) x ↔ CallWay q rules star b x }
    ensures reference { (q : Query) (rules : RuleFile) (star : Seq ℕ) (args : Seq ValueExpr)
        (b : Seq RuleValue) (x : DerivedPlan)
        → IsDerived q rules (Expression (made.Reference star args) b) x
        ↔ IsDerived q rules (Call star (values_of q b args)) x }
    ensures goal { (q : Query) (rules : RuleFile) (s j : ℕ) (x : DerivedPlan)
        → IsDerived q rules (ForGoal s j) x ↔ GoalWay q rules s j x }
{}

/// The for-all names of an alternative are bound one after another, each to every member of its
/// range under the names before it.
pub fn names_are_bound_in_turn()
    ensures alternative { (q : Query) (rules : RuleFile) (star : Seq ℕ) (b : Seq RuleValue) (n : ℕ)
        (x : DerivedPlan) → ((picks : Seq ℕ) × BodyWay q rules star b n picks x)
        ↔ ((a : Alternative) × (alternative_of rules star n ≡ Some a)
        × RangesWay q rules star n a a.ranges [] b x) }
    ensures none { (q : Query) (rules : RuleFile) (star : Seq ℕ) (n : ℕ) (a : Alternative)
        (picked : Seq ℕ) (c : Seq RuleValue) (x : DerivedPlan)
        → RangesWay q rules star n a [] picked c x ↔ BoundWay q rules star n a picked c x }
    ensures more { (q : Query) (rules : RuleFile) (star : Seq ℕ) (n : ℕ) (a : Alternative)
        (f : ForAll) (fs : Seq ForAll) (picked : Seq ℕ) (c : Seq RuleValue) (x : DerivedPlan)
        → RangesWay q rules star n a (f ∷ fs) picked c x
        ↔ From (numbers_of q c f.range) (λ m. RangesWay q rules star n a fs (picked ++ (m + 1) ∷ [])
        (c ++ member_at f.range m ∷ [])) x }
    ensures step { (q : Query) (f : ForAll) (fs : Seq ForAll) (m : ℕ) (more : Seq ℕ)
        (c : Seq RuleValue) → Contains (numbers_of q c f.range) m
        → bound q (f ∷ fs) ((m + 1) ∷ more) c ≡ bound q fs more (c ++ member_at f.range m ∷ []) }
{}

/// A set of what is best at a place has a member above each plan that is derived there, and its
/// members are derived there, with the vectors of their plans. Where nothing is derived, the empty
/// set is such a set.
pub fn members_stand_for_what_is_derived()
    ensures above { (q : Query) (rules : RuleFile) (x : Expected) (plans : Seq DerivedPlan)
        → IsBestOf q rules x plans → (e : DerivedPlan) → IsDerived q rules x e
        → (m : DerivedPlan) × Contains plans m × (is_better_plan m e ≡ true) }
    ensures derived { (q : Query) (rules : RuleFile) (x : Expected) (plans : Seq DerivedPlan)
        → IsBestOf q rules x plans → (m : DerivedPlan) → Contains plans m → IsDerived q rules x m }
    ensures fit { (q : Query) (rules : RuleFile) (x : Expected) (plans : Seq DerivedPlan)
        → IsBestOf q rules x plans → AllFit q (costs_of rules) plans }
    ensures nothing { (q : Query) (rules : RuleFile) (x : Expected)
        → ((e : DerivedPlan) → IsDerived q rules x e → ⊥) → IsBestOf q rules x [] }
{}

/// What is best where an operator is expected is made of what is best where its inputs are. Nothing
/// is made of two inputs where nothing is derived at the left.
pub fn operators_exchange()
    ensures none { (q : Query) (rules : RuleFile) (f : Flavour) (args : Seq ValueExpr)
        (b : Seq RuleValue) (old new : Seq DerivedPlan)
        → Gathers is_better_plan old new (LeafWay q (costs_of rules) f args b)
        → Gathers is_better_plan old new (IsDerived q rules (Expression (made.Leaf f args) b)) }
    ensures one { (q : Query) (rules : RuleFile) → CostsPass (costs_of rules)
        → (f : Flavour) (args : Seq ValueExpr) (e : PlanExpr) (b : Seq RuleValue)
        (inputs old new : Seq DerivedPlan) → IsBestOf q rules (Expression e b) inputs
        → Gathers is_better_plan old new (From inputs
        (OverOne q (costs_of rules) f (operator_of f (values_of q b args))))
        → Gathers is_better_plan old new (IsDerived q rules (Expression (expr.Unary f args e) b)) }
    ensures two { (q : Query) (rules : RuleFile) → CostsPass (costs_of rules)
        → (f : Flavour) (args : Seq ValueExpr) (d e : PlanExpr) (b : Seq RuleValue)
        (lefts rights old new : Seq DerivedPlan) → IsBestOf q rules (Expression d b) lefts
        → IsBestOf q rules (Expression e b) rights
        → Gathers is_better_plan old new (From lefts
        (λ l. From rights (OverTwo q (costs_of rules) f (operator_of f (values_of q b args)) l)))
        → Gathers is_better_plan old new (IsDerived q rules
        (Expression (expr.Binary f args d e) b)) }
    ensures nothing { (q : Query) (rules : RuleFile) (f : Flavour) (args : Seq ValueExpr)
        (d e : PlanExpr) (b : Seq RuleValue) → IsBestOf q rules (Expression d b) []
        → (x : DerivedPlan) → IsDerived q rules (Expression (expr.Binary f args d e) b) x → ⊥ }
{}

/// What is best where Glue is expected is made by its chains of what is best below it; and the
/// formulas of an accepted file are such that better inputs serve.
pub fn chains_exchange()
    ensures glue { (q : Query) (rules : RuleFile) → CostsPass (costs_of rules)
        → (x y : Expected) (r : Require) → glue_of q x ≡ Some (r, y)
        → (plans old new : Seq DerivedPlan) → IsBestOf q rules y plans
        → Gathers is_better_plan old new (From plans (GluesTo q (costs_of rules) r))
        → Gathers is_better_plan old new (IsDerived q rules x) }
    ensures accepted { (rules : RuleFile) → IsAccepted rules → CostsPass (costs_of rules) }
{}

/// What is best where a STAR is called is made of what is best at the bodies of its alternatives,
/// each under every binding of its for-all names for which the condition holds.
pub fn references_exchange()
    ensures body { (q : Query) (rules : RuleFile) (star : Seq ℕ) (n : ℕ) (a : Alternative)
        (picked : Seq ℕ) (c : Seq RuleValue) (plans old new : Seq DerivedPlan)
        → meets q c a.condition ≡ true → IsBestOf q rules (Expression a.body c) plans
        → Gathers is_better_plan old new (From plans (RefersTo star n picked))
        → Gathers is_better_plan old new (RangesWay q rules star n a [] picked c) }
    ensures unmet { (q : Query) (rules : RuleFile) (star : Seq ℕ) (n : ℕ) (a : Alternative)
        (picked : Seq ℕ) (c : Seq RuleValue) (plans : Seq DerivedPlan)
        → meets q c a.condition ≡ false → Gathers is_better_plan plans plans
        (RangesWay q rules star n a [] picked c) }
    ensures ranges { (q : Query) (rules : RuleFile) (star : Seq ℕ) (n : ℕ) (a : Alternative)
        (f : ForAll) (fs : Seq ForAll) (picked : Seq ℕ) (c : Seq RuleValue)
        (old new : Seq DerivedPlan) → Gathers is_better_plan old new
        (From (numbers_of q c f.range) (λ m. RangesWay q rules star n a fs (picked ++ (m + 1) ∷ [])
        (c ++ member_at f.range m ∷ []))) → Gathers is_better_plan old new
        (RangesWay q rules star n a (f ∷ fs) picked c) }
    ensures call { (q : Query) (rules : RuleFile) (star : Seq ℕ) (b : Seq RuleValue)
        (old new : Seq DerivedPlan) → Gathers is_better_plan old new
        (λ x. (n : ℕ) × (a : Alternative) × (alternative_of rules star n ≡ Some a)
        × RangesWay q rules star n a a.ranges [] b x)
        → Gathers is_better_plan old new (IsDerived q rules (Call star b)) }
    ensures reference { (q : Query) (rules : RuleFile) (star : Seq ℕ) (args : Seq ValueExpr)
        (b : Seq RuleValue) (plans : Seq DerivedPlan)
        → IsBestOf q rules (Call star (values_of q b args)) plans
        → IsBestOf q rules (Expression (made.Reference star args) b) plans }
{}

/// What is best for a goal is made of what is best where its root STAR is called: once for one
/// quantifier, and else for each split of the list, which has each that the goal may have.
pub fn goals_exchange()
    ensures listed { (s : ℕ) → s < 2 ^ 32 → nat_eq (size s) 1 ≡ false → (p : ℕ × ℕ)
        → (may_split s (Some p) ≡ true) ↔ Contains (splits s) p }
    ensures split { (q : Query) (rules : RuleFile) (s j : ℕ) (split : Option (ℕ × ℕ))
        (plans old new : Seq DerivedPlan) → may_split s split ≡ true
        → IsBestOf q rules (root_call s j split) plans
        → Gathers is_better_plan old new (From plans (ReachesTo q s j split))
        → Gathers is_better_plan old new (SplitWay q rules s j split) }
    ensures one { (q : Query) (rules : RuleFile) (s j : ℕ) (old new : Seq DerivedPlan) → size s ≡ 1
        → Gathers is_better_plan old new (SplitWay q rules s j None)
        → Gathers is_better_plan old new (IsDerived q rules (ForGoal s j)) }
    ensures several { (q : Query) (rules : RuleFile) (s j : ℕ) (old new : Seq DerivedPlan)
        → s < 2 ^ 32 → nat_eq (size s) 1 ≡ false
        → Gathers is_better_plan old new (From (splits s) (λ p. SplitWay q rules s j (Some p)))
        → Gathers is_better_plan old new (IsDerived q rules (ForGoal s j)) }
{}

/// The vectors in a set of what is best for a goal are those of the goal's frontier, each once.
pub fn goal_sets_have_the_frontier()
    ensures frontier { (q : Query) (rules : RuleFile) (s j : ℕ) (plans : Seq DerivedPlan)
        → IsBestOf q rules (ForGoal s j) plans → (v : Props)
        → ((m : DerivedPlan) × Contains plans m × (vector_of m ≡ v)) ↔ OnFrontier q rules s j v }
    ensures once { (q : Query) (rules : RuleFile) (x : Expected) (plans : Seq DerivedPlan)
        → IsBestOf q rules x plans → AllPairs (λ e f. vector_of e ≡ vector_of f → ⊥) plans }
{}

/// A chain of Glue over a derived plan gives one whose vector is that of the chain over the plan's
/// vector, and none where that has none.
pub fn chains_give_their_vectors()
    ensures vector { (q : Query) (costs : Seq CostEntry) (r : Require) (chain : Seq GlueOp)
        (e m : DerivedPlan) → chained q costs r chain e ≡ Some m
        → chain_vector q costs r chain (vector_of e) ≡ Some (vector_of m) }
    ensures some { (q : Query) (costs : Seq CostEntry) (r : Require) (chain : Seq GlueOp)
        (e : DerivedPlan) (w : Props) → chain_vector q costs r chain (vector_of e) ≡ Some w
        → (m : DerivedPlan) × (chained q costs r chain e ≡ Some m) × (vector_of m ≡ w) }
{}

/// A root derivation is one that is valid for the query. Of a set of what is best there, a member
/// that costs no more than any other is a plan of least cost; if the set is empty, there is no
/// plan.
pub fn the_cheapest_costs_least()
    ensures root { (q : Query) (rules : RuleFile) (d : Deriv) (v : Props) → IsRoot q rules d v
        ↔ HasVector q rules d ForQuery v }
    ensures least { (q : Query) (rules : RuleFile) (plans : Seq DerivedPlan)
        → IsBestOf q rules ForQuery plans → (m : DerivedPlan) → Contains plans m
        → ((e : DerivedPlan) → Contains plans e → (vector_of m).cost ≤ (vector_of e).cost)
        → IsLeast q rules m.deriv (vector_of m) }
    ensures none { (q : Query) (rules : RuleFile) (plans : Seq DerivedPlan)
        → IsBestOf q rules ForQuery plans → plans ≡ [] → (d : Deriv) (v : Props)
        → IsRoot q rules d v → ⊥ }
{}

/// A place asks for a goal if one of its parts does, or if it is a Glue for it; a goal asks for
/// another as its place does.
pub fn places_ask_for_what_their_parts_ask()
    ensures parts { (q : Query) (rules : RuleFile) (x : Expected) (t k : ℕ) → AsksFrom q rules x t k
        ↔ AsksBelow q rules x t k }
    ensures goal { (q : Query) (rules : RuleFile) (s j t k : ℕ) → Asks q rules s j t k
        ↔ AsksFrom q rules (ForGoal s j) t k }
{}
