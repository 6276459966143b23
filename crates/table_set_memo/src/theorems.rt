// The laws of the definitions, each the clause of a function that does nothing.

ghost use Rattle.std.specs.Prelude.{◌≡◌, ◌++◌, ◌∷◌, [], List, Option, Some, None, ◌⊎◌, Contains};
ghost use Rattle.star_model.specs.declared.plans.Goal.{Goal};
ghost use Rattle.lolepop.specs.Derived.{DerivedPlan};
ghost use Rattle.table_set_memo.specs.Memos.{GoalSet, plans_at};

/// After a put the goals that were held have the sets that they had, the new goal has the set that
/// was put, and no other goal has one.
pub fn puts_add_goals()
    ensures old { (memo added : List GoalSet) (g : Goal) (plans : List DerivedPlan)
        → plans_at memo g ≡ Some plans → plans_at (memo ++ added) g ≡ Some plans }
    ensures new { (memo : List GoalSet) (g : Goal) (plans : List DerivedPlan)
        → plans_at memo g ≡ None → plans_at (memo ++ (g, plans) ∷ []) g ≡ Some plans }
    ensures cases { (memo : List GoalSet) (g h : Goal) (plans found : List DerivedPlan)
        → plans_at (memo ++ (g, plans) ∷ []) h ≡ Some found → (plans_at memo h ≡ Some found)
        ⊎ ((g ≡ h) × (plans ≡ found)) }
{}

/// A goal that is held stands in the memo with its set.
pub fn held_goals_are_listed()
    ensures { (memo : List GoalSet) (g : Goal) (plans : List DerivedPlan)
        → plans_at memo g ≡ Some plans → Contains memo (g, plans) }
{}
