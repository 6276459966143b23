// The laws of the definitions, each the clause of a function that does nothing.

ghost use Rattle.std.specs.Prelude.{◌≡◌, ◌↔◌, ◌++◌, ◌∷◌, [], ℕ, List, Some, None, true, ◌⊎◌};
ghost use Rattle.star_model.specs.declared.values.RuleValue.{RuleValue};
ghost use Rattle.lolepop.specs.Derived.{DerivedPlan};
ghost use Rattle.shared_sets.specs.Equality.{equal_value};
ghost use Rattle.shared_sets.specs.Tables.{same_call, kept_for, same_request, glued_for};
ghost use Rattle.shared_sets.specs.declared.ref_table.StarCall.{StarCall};
ghost use Rattle.shared_sets.specs.declared.glued_sets.GlueRequest.{GlueRequest};

/// Values pass the test exactly where they are equal; so do calls, and requests of Glue.
pub fn tests_tell_equality()
    ensures values { (v w : RuleValue) → (equal_value v w ≡ true) ↔ (v ≡ w) }
    ensures calls { (c d : StarCall) → (same_call c d ≡ true) ↔ (c ≡ d) }
    ensures requests { (r s : GlueRequest) → (same_request r s ≡ true) ↔ (r ≡ s) }
{}

/// What is found after a set was kept was found before, or is that set, kept for what is asked for.
pub fn tables_have_what_was_kept()
    ensures calls { (table : List (StarCall × List DerivedPlan)) (star other : List ℕ)
        (env values : List RuleValue) (plans found : List DerivedPlan)
        → kept_for (table ++ (record { star = star; env = env }, plans) ∷ []) other values
        ≡ Some found → (kept_for table other values ≡ Some found)
        ⊎ ((star ≡ other) × (env ≡ values) × (plans ≡ found)) }
    ensures requests { (table : List (GlueRequest × List DerivedPlan)) (r s : GlueRequest)
        (plans found : List DerivedPlan) → glued_for (table ++ (r, plans) ∷ []) s ≡ Some found
        → (glued_for table s ≡ Some found) ⊎ ((r ≡ s) × (plans ≡ found)) }
{}
