// What the definitions say of records of tables, of choices of rows, and of what is well formed.
ghost use Rattle.std.specs.Prelude.{◌≡◌, ◌++◌, ◌∷◌, [], true, false, codes, replicate};
ghost use Rattle.star_model.specs.Answers.{is_earlier, is_in_range, stands_before, values_of_columns};
ghost use Rattle.star_model.specs.Numbers.{top};
ghost use Rattle.star_model.specs.Vectors.{same_numbers};
ghost use Rattle.star_model.specs.WellFormed.{differ, is_number};
ghost use Rattle.worked_plans.specs.Queries as query;
ghost use Rattle.worked_plans.specs.Tables.{integer, negative, text, mark, marked, header, Holds, HoldsNothing, FieldHolds, FieldHoldsNothing, three_rows, pair, PairsAre, AreBelowAs, CompareAs, AreNames, AreColumns};

/// A byte order mark in front, columns in another order, a column more, and spaces round a number.
pub fn table_as_tools_write_it()
    ensures { Holds (marked ∷ (codes " 7 " ∷ codes "zz" ∷ codes "Ann" ∷ []) ∷ [])
        ((text (codes "Ann") ∷ integer 7 ∷ []) ∷ []) }
{}

/// A header alone.
pub fn table_without_rows()
    ensures { Holds (header ∷ []) [] }
{}

/// Tables without rows of their own: no header, a column that is missing or stands twice, and a
/// record that is too short or too long.
pub fn tables_with_a_fault()
    ensures nothing { HoldsNothing [] }
    ensures missing { HoldsNothing ((codes "n" ∷ []) ∷ []) }
    ensures twice { HoldsNothing ((codes "n" ∷ codes "n" ∷ codes "k" ∷ []) ∷ []) }
    ensures mark_inside { HoldsNothing ((codes "n" ∷ (mark ++ codes "k") ∷ []) ∷ []) }
    ensures short { HoldsNothing (header ∷ (codes "8" ∷ []) ∷ []) }
    ensures long { HoldsNothing (header ∷ (codes "8" ∷ codes "Ann" ∷ codes "zz" ∷ []) ∷ []) }
    ensures second { HoldsNothing (header ∷ (codes "8" ∷ codes "Ann" ∷ [])
        ∷ (codes "" ∷ codes "Bob" ∷ []) ∷ []) }
{}

/// Fields that hold an integer.
pub fn integers_in_fields()
    ensures signed { FieldHolds (codes " +5 ") (integer 5) }
    ensures zeros { FieldHolds (codes "007") (integer 7) }
    ensures below_zero { FieldHolds (codes "-7  ") (negative 7) }
    ensures least { FieldHolds (codes "-9223372036854775808") (negative 9223372036854775808) }
    ensures greatest { FieldHolds (codes "9223372036854775807") (integer 9223372036854775807) }
{}

/// Fields that hold none.
pub fn fields_without_an_integer()
    ensures nothing { FieldHoldsNothing [] }
    ensures spaces { FieldHoldsNothing (codes "  ") }
    ensures sign { FieldHoldsNothing (codes "+") }
    ensures signs { FieldHoldsNothing (codes "+-5") }
    ensures space_inside { FieldHoldsNothing (codes "5 5") }
    ensures space_behind_sign { FieldHoldsNothing (codes "- 5") }
    ensures letter { FieldHoldsNothing (codes "5x") }
    ensures tab { FieldHoldsNothing (9 ∷ codes "5") }
    ensures too_great { FieldHoldsNothing (codes "9223372036854775808") }
    ensures too_small { FieldHoldsNothing (codes "-9223372036854775809") }
{}

/// The pairs of rows of a table joined with itself.
pub fn pairs_of_rows()
    ensures { PairsAre ((0, 0, true) ∷ (0, 1, true) ∷ (1, 0, true) ∷ (1, 1, true) ∷ (2, 2, true)
        ∷ (0, 2, false) ∷ (2, 1, false) ∷ []) }
{}

/// Which positions are those of rows, the values of a choice, and which choice is earlier in the
/// query's order.
pub fn choices_of_rows()
    ensures inside { is_in_range query.pairs three_rows (pair 2 2) ≡ true }
    ensures outside { is_in_range query.pairs three_rows (pair 0 3) ≡ false }
    ensures values { values_of_columns query.pairs three_rows query.pairs.select (pair 0 2)
        ≡ integer 1 ∷ integer 2 ∷ [] }
    ensures earlier { is_earlier query.pairs three_rows query.pairs.order (pair 0 2) (pair 2 2)
        ≡ true }
    ensures later { is_earlier query.pairs three_rows query.pairs.order (pair 2 2) (pair 0 2)
        ≡ false }
    ensures second_column { stands_before (integer 1 ∷ integer 2 ∷ []) (integer 1 ∷ integer 3 ∷ [])
        ≡ true }
    ensures first_column { stands_before (integer 2 ∷ integer 1 ∷ []) (integer 1 ∷ integer 3 ∷ [])
        ≡ false }
    ensures tied { is_earlier query.pairs three_rows query.pairs.order (pair 0 2) (pair 1 1)
        ≡ false }
{}

/// The order of values: integers with their signs, texts byte by byte, and none between the two
/// types.
pub fn values_below()
    ensures { AreBelowAs ((integer 2, integer 10, true) ∷ (integer 10, integer 2, false)
        ∷ (integer 2, integer 2, false) ∷ (negative 3, negative 2, true)
        ∷ (negative 1, integer 0, true) ∷ (text (codes "Ann"), text (codes "Anna"), true)
        ∷ (text (codes "Anna"), text (codes "Ann"), false)
        ∷ (text (codes "B"), text (codes "Ann"), false)
        ∷ (text (codes "10"), text (codes "2"), true) ∷ (text [], text (codes "A"), true)
        ∷ (text (codes "A"), text (codes "A"), false) ∷ (integer 1, text (codes "2"), false) ∷ []) }
{}

/// The six comparisons of two values.
pub fn comparisons()
    ensures equal { CompareAs (integer 2) (integer 2)
        (true ∷ false ∷ false ∷ true ∷ false ∷ true ∷ []) }
    ensures below { CompareAs (negative 2) (integer 1)
        (false ∷ true ∷ true ∷ true ∷ false ∷ false ∷ []) }
    ensures above { CompareAs (text (codes "b")) (text (codes "a"))
        (false ∷ true ∷ false ∷ false ∷ true ∷ true ∷ []) }
    ensures same_text { CompareAs (text (codes "a")) (text (codes "a"))
        (true ∷ false ∷ false ∷ true ∷ false ∷ true ∷ []) }
{}

/// Names are words of at most 64 bytes, numbers are at most 10^18, and no name stands twice.
pub fn names_and_numbers()
    ensures names { AreNames ((codes "a", true) ∷ (codes "_a1", true) ∷ (codes "Z_9", true)
        ∷ (codes "1a", false) ∷ (codes "a-b", false) ∷ ([], false) ∷ (replicate 64 97, true)
        ∷ (replicate 65 97, false) ∷ []) }
    ensures greatest { is_number top ≡ true }
    ensures beyond { is_number 1000000000000000001 ≡ false }
    ensures different { differ same_numbers (codes "a" ∷ codes "b" ∷ codes "ab" ∷ []) ≡ true }
    ensures twice { differ same_numbers (codes "a" ∷ codes "b" ∷ codes "a" ∷ []) ≡ false }
{}

/// The columns of a query are those of its quantifiers' tables.
pub fn columns_of_a_query()
    ensures { AreColumns ((record { quant = record { 0 = 0 }; column = 1 }, true)
        ∷ (record { quant = record { 0 = 0 }; column = 2 }, false)
        ∷ (record { quant = record { 0 = 1 }; column = 2 }, true)
        ∷ (record { quant = record { 0 = 2 }; column = 0 }, false) ∷ []) }
{}
