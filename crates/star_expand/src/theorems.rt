// The laws of expansion, each the clause of a function that does nothing.

ghost use Rattle.std.specs.Prelude.{◌≡◌, ℕ, List, [], Some, None, ◌↔◌};
ghost use Rattle.star_model.specs.Accepted.{IsAccepted};
ghost use Rattle.star_model.specs.AskedGoals.{AskedGoal};
ghost use Rattle.star_model.specs.Expected.{query_goal};
ghost use Rattle.star_model.specs.Goals.{IsGoal};
ghost use Rattle.star_model.specs.Predicates.{all_quants};
ghost use Rattle.star_model.specs.WellFormed.{WellFormedQuery};
ghost use Rattle.star_model.specs.declared.plans.Goal.{Goal};
ghost use Rattle.star_model.specs.declared.query.Query.{Query};
ghost use Rattle.star_model.specs.declared.rules.RuleFile.{RuleFile};
ghost use Rattle.lolepop.specs.Derived.{DerivedPlan};
ghost use Rattle.table_set_memo.specs.Memos.{GoalSet, IsHeld, plans_at};
ghost use Rattle.exchange.specs.Places.{IsBestOf};
ghost use Rattle.search_places.specs.Memos.{HoldsFrontiers, IsClosed};
ghost use Rattle.star_expand.specs.Expanding.{AskedFrom, HoldsQueryGoals};

/// The goals that a query asks for are those that are asked from its goal.
pub fn asked_goals_are_asked_from()
    ensures { (q : Query) (rules : RuleFile) (t k : ℕ) → AskedGoal q rules t k
        ↔ AskedFrom q rules (all_quants q) 0 t k }
{}

/// A closed memo that holds a goal holds all that are asked from it, however far.
pub fn closed_memos_hold_all()
    ensures { (q : Query) (rules : RuleFile) (memo : List GoalSet) (g h : Goal)
        → IsClosed q rules memo → IsHeld memo g
        → AskedFrom q rules g.tables g.pushed h.tables h.pushed → IsHeld memo h }
{}

/// A search may begin with the empty memo: it has no wrong set, and lacks nothing that a goal of
/// its own asks for.
pub fn searches_begin_with_nothing()
    ensures frontiers { (q : Query) (rules : RuleFile) (memo : List GoalSet) → memo ≡ []
        → HoldsFrontiers q rules memo }
    ensures closed { (q : Query) (rules : RuleFile) (memo : List GoalSet) → memo ≡ []
        → IsClosed q rules memo }
{}

/// The query's goal is one of its goals. A memo that holds what the query asks for holds it, and
/// has its best plans where each set is right.
pub fn query_goals_are_answered()
    ensures goal { (q : Query) (rules : RuleFile) (g : Goal) → WellFormedQuery q → IsAccepted rules
        → g ≡ record { tables = all_quants q; pushed = 0 } → IsGoal q g.tables g.pushed }
    ensures held { (q : Query) (rules : RuleFile) (memo : List GoalSet) (g : Goal)
        → g ≡ record { tables = all_quants q; pushed = 0 } → HoldsQueryGoals q rules memo
        → None ≡ plans_at memo g → ⊥ }
    ensures best { (q : Query) (rules : RuleFile) (memo : List GoalSet) (g : Goal)
        (plans : List DerivedPlan) → g ≡ record { tables = all_quants q; pushed = 0 }
        → HoldsFrontiers q rules memo → Some plans ≡ plans_at memo g
        → IsBestOf q rules (query_goal q) plans }
{}
