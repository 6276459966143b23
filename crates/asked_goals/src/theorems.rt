// The laws of asked goals, each the clause of a function that does nothing.

ghost use Rattle.std.specs.Prelude.{◌≡◌, ℕ, ◌<◌, ◌^◌, true, false, nat_eq, List, Some, Contains};
ghost use Rattle.star_model.specs.Accepted.{IsAccepted};
ghost use Rattle.star_model.specs.AskedGoals.{Asks};
ghost use Rattle.star_model.specs.Expected.{may_split, root_call};
ghost use Rattle.star_model.specs.Sets.{size, splits};
ghost use Rattle.star_model.specs.declared.plans.Goal.{Goal};
ghost use Rattle.star_model.specs.declared.query.Query.{Query};
ghost use Rattle.star_model.specs.declared.rules.RuleFile.{RuleFile};
ghost use Rattle.table_set_memo.specs.Memos.{GoalSet, IsHeld};
ghost use Rattle.exchange.specs.Asking.{AsksFrom};
ghost use Rattle.search_places.specs.Memos.{HoldsAsked};

/// A goal of several quantifiers asks for what its splits ask for, and under an accepted file one
/// of one quantifier for nothing. So a memo holds what a goal asks for where it does so for each of
/// its splits.
pub fn splits_ask()
    ensures one { (q : Query) (rules : RuleFile) (s j t k : ℕ) → IsAccepted rules → size s ≡ 1
        → Asks q rules s j t k → ⊥ }
    ensures split { (q : Query) (rules : RuleFile) (s j t k : ℕ) (p : ℕ × ℕ)
        → may_split s (Some p) ≡ true → AsksFrom q rules (root_call s j (Some p)) t k
        → Asks q rules s j t k }
    ensures several { (q : Query) (rules : RuleFile) (s j t k : ℕ) → s < 2 ^ 32
        → nat_eq (size s) 1 ≡ false → Asks q rules s j t k
        → (p : ℕ × ℕ) × Contains (splits s) p × AsksFrom q rules (root_call s j (Some p)) t k }
    ensures holds_of_one { (q : Query) (rules : RuleFile) (memo : List GoalSet) (g : Goal)
        → IsAccepted rules → size g.tables ≡ 1 → HoldsAsked q rules memo g }
    ensures holds_of_splits { (q : Query) (rules : RuleFile) (memo : List GoalSet) (g : Goal)
        → g.tables < 2 ^ 32 → nat_eq (size g.tables) 1 ≡ false
        → ((p : ℕ × ℕ) → Contains (splits g.tables) p → (h : Goal)
        → AsksFrom q rules (root_call g.tables g.pushed (Some p)) h.tables h.pushed → IsHeld memo h)
        → HoldsAsked q rules memo g }
{}
