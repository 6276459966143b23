// Worked claims and laws of the definitions, each the clause of a function that does nothing.

ghost use Rattle.std.specs.Prelude.{◌≡◌, ℕ, true, [], ◌∷◌, ◌++◌, map, length, codes};
ghost use Rattle.std.specs.List.{range_with_len};
ghost use Rattle.workload_gen.specs.Draws.{state_of_seed, value_from, state_after};
ghost use Rattle.workload_gen.specs.Tables.{drawn_tables};
ghost use Rattle.catalogue.specs.Faults as of_catalogue;
ghost use Rattle.catalogue.specs.Faults.{SaysStatements};
ghost use Rattle.query_graph.specs.Faults as of_query;
ghost use Rattle.query_graph.specs.Faults.{Says};
ghost use Rattle.workload_gen.specs.CatalogueText.{catalogue_statements};
ghost use Rattle.workload_gen.specs.Links.{AreLinked};
ghost use Rattle.workload_gen.specs.QueryText.{query_statement};
ghost use Rattle.workload_gen.specs.Trees.{catalogue_tree, query_tree};
ghost use Rattle.workload_gen.specs.Workloads.{IsSize, workload};

/// A workload has as many tables as its size says, and each row of a table refers to a row of the
/// table before.
pub fn rows_refer_to_rows_before()
    ensures count { (seed size : ℕ) → length (drawn_tables seed size) ≡ size }
    ensures linked { (seed size : ℕ) → AreLinked 1 (drawn_tables seed size) }
{}

/// The texts of a workload are read as the statements of which they are made.
pub fn texts_say_their_statements()
    ensures catalogue { (seed size : ℕ) → IsSize size
        → SaysStatements (workload seed size).catalogue
        (catalogue_statements (drawn_tables seed size)) }
    ensures query { (seed size : ℕ) → IsSize size
        → Says (workload seed size).query (query_statement size) }
{}

/// The catalogue and the query of a workload are accepted: reading each gives its tree, or memory
/// is wanting.
pub fn texts_are_accepted()
    ensures catalogue { (seed size : ℕ) → IsSize size
        → of_catalogue.IsAccepted (workload seed size).catalogue
        (catalogue_tree (drawn_tables seed size)) }
    ensures query { (seed size : ℕ) → IsSize size
        → of_query.IsAccepted (catalogue_tree (drawn_tables seed size)) (workload seed size).query
        (query_tree (drawn_tables seed size)) }
{}

/// The numbers with which those of seed 1 begin.
pub fn seed_1_begins()
    ensures { map (λ steps. value_from (state_after steps (state_of_seed 1))) (range_with_len 0 6)
        ≡ 16838 ∷ 5758 ∷ 10113 ∷ 17515 ∷ 31051 ∷ 5627 ∷ [] }
{}

/// Two tables of seed 1.
pub fn two_tables_of_seed_1()
    ensures rows { map (λ t. t.rows) (drawn_tables 1 2) ≡ 13 ∷ 15 ∷ [] }
    ensures pages { map (λ t. t.pages) (drawn_tables 1 2) ≡ 3 ∷ 4 ∷ [] }
    ensures indexes { map (λ t. t.is_indexed) (drawn_tables 1 2) ≡ true ∷ true ∷ [] }
{}

/// The texts of the workload of two tables of seed 1.
pub fn texts_of_seed_1()
    ensures catalogue { (workload 1 2).catalogue
        ≡ codes "site hq cpu 1 net 1;\n"
        ++ codes "table t1 at hq rows 13 pages 3 file 't1.csv' "
        ++ codes "(id int width 8 distinct 13, prev int width 8 distinct 1);\n"
        ++ codes "index x1 on t1(prev, id) pages 1;\n"
        ++ codes "table t2 at hq rows 15 pages 4 file 't2.csv' "
        ++ codes "(id int width 8 distinct 15, prev int width 8 distinct 13);\n"
        ++ codes "index x2 on t2(prev, id) pages 1;\n" }
    ensures query { (workload 1 2).query
        ≡ codes "select q1.id, q2.id from t1 q1, t2 q2 where q2.prev = q1.id order by q2.id;\n" }
{}
