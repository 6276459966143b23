// Which rows a query asks for: claimed of its answer, and refuted of rows that come close.
ghost use Rattle.std.specs.Prelude.{[], ◌∷◌};
ghost use Rattle.worked_plans.specs.WordRows.{row_a, row_b, AreAnswer};

/// The words of two tables that are the same, sorted by the numbers beside them: each row once, and
/// none left out.
pub fn rows_of_two_tables()
    ensures sorted { AreAnswer (row_b ∷ row_a ∷ []) }
    ensures exchanged { AreAnswer (row_a ∷ row_b ∷ []) → ⊥ }
    ensures twice { AreAnswer (row_b ∷ row_b ∷ row_a ∷ []) → ⊥ }
    ensures missing { AreAnswer (row_b ∷ []) → ⊥ }
{}
