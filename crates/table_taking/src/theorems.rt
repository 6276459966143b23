// The laws of the definitions, each the clause of a function that does nothing.
ghost use Rattle.std.specs.Prelude.{◌≡◌, ◌≤◌, ℕ, List as Seq, length, slice_get, Some, Contains};
ghost use Rattle.star_model.specs.Limits.{most_quantifiers};
ghost use Rattle.sb_outside.specs.Shelf.{Files, ShelfState};
ghost use Rattle.star_model.specs.Answers.{Data};
ghost use Rattle.star_model.specs.WellFormed.{WellFormedQuery};
ghost use Rattle.star_model.specs.declared.query.Query.{Query};
ghost use Rattle.star_model.specs.declared.query.QuantDef.{QuantDef};
ghost use Rattle.table_taking.specs.QueryTables.{tables_of, AreRows};
ghost use Rattle.table_taking.specs.Taking.{RefusedAt};
ghost use Rattle.table_taking.specs.Told.{HoldsTables, FirstRefused};

/// A query has at most twelve tables.
pub fn queries_have_few_tables()
    ensures { (q : Query) → WellFormedQuery q → length (tables_of q) ≤ most_quantifiers }
{}

/// The table of each quantifier is one of the query's tables.
pub fn tables_of_quantifiers_are_taken()
    ensures { (q : Query) (place : ℕ) (d : QuantDef) → slice_get q.quants place ≡ Some d
        → Contains (tables_of q) d.table }
{}

/// Tables whose told files hold rows are not refused.
pub fn told_tables_are_not_refused()
    ensures { (q : Query) (files : Files) (before now : ShelfState) (line : Seq ℕ)
        → before.held ≡ Some files → HoldsTables q files → RefusedAt q before now line → ⊥ }
{}

/// The first table whose told file doesn't hold rows has one line, with which it is refused. Where
/// there is such a table, the tables have no rows.
pub fn first_refused_table_has_one_line()
    ensures one_line { (q : Query) (files : Files) (before now : ShelfState) (place : ℕ)
        → before.held ≡ Some files → (line other : Seq ℕ) → FirstRefused q files place line
        → RefusedAt q before now other → other ≡ line }
    ensures no_rows { (q : Query) (files : Files) (data_ : Data) (place : ℕ) (line : Seq ℕ)
        → FirstRefused q files place line → AreRows q (Some files) data_ → ⊥ }
{}
