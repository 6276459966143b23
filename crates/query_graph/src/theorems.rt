// The laws of the definitions, each the clause of a function that does nothing.

ghost use Rattle.std.specs.Prelude.{◌≡◌, ◌⊎◌, ℕ, List, None, Some, [], ◌∷◌};
ghost use Rattle.sb_text.specs.Refusal.{fault_of};
ghost use Rattle.star_model.specs.Selectivity.{weighed};
ghost use Rattle.star_model.specs.WellFormed.{WellFormedCatalogue, WellFormedQuery};
ghost use Rattle.star_model.specs.declared.catalogue.Catalogue.{Catalogue};
ghost use Rattle.star_model.specs.declared.faults.LimitKind.{LimitKind};
ghost use Rattle.star_model.specs.declared.query.Query.{Query};
ghost use Rattle.spelling.specs.Firsts.{NoneHas};
ghost use Rattle.query_graph.specs.Queries.{QueryStatement, query_of, SpellsQuery, only_column, query_lexemes, IsFree, SpellsQueryStatement};
ghost use Rattle.query_graph.specs.declared.fault.QueryFault.{QueryFault};
ghost use Rattle.query_graph.specs.Faults.{NamesUnknown, DefinesTwice, Beyond, HasTwoTypes, Says, HasFault, IsFirstFault, IsAccepted};
ghost use Rattle.spelling.specs.Lexemes.{Lexeme, IsStatements};
ghost use Rattle.star_model.specs.declared.catalogue.TableDef.{TableDef};
ghost use Rattle.star_model.specs.declared.catalogue.ColumnDef.{ColumnDef};

/// Over a catalogue one text has at most one first fault.
pub fn one_fault()
    ensures { (catalogue : Catalogue) (text : List ℕ) (f g : QueryFault)
        → IsFirstFault catalogue text f → IsFirstFault catalogue text g → f ≡ g }
{}

/// Over a well-formed catalogue each text has a verdict: it is accepted, or has a first fault.
pub fn some_verdict()
    ensures { (catalogue : Catalogue) (text : List ℕ) → WellFormedCatalogue catalogue
        → ((query : Query) × IsAccepted catalogue text query)
        ⊎ ((fault : QueryFault) × IsFirstFault catalogue text fault) }
{}

/// A text is accepted whose tokens and names have no fault, and which means a well-formed query
/// without a clash of types.
pub fn queries_without_fault_are_accepted()
    ensures { (catalogue : Catalogue) (text : List ℕ) (q : QueryStatement) → fault_of text ≡ None
        → Says text q → (NamesUnknown catalogue q → ⊥) → (DefinesTwice q → ⊥)
        → ((what : LimitKind) → Beyond q what → ⊥) → (query : Query)
        → query_of catalogue q ≡ Some query → NoneHas (λ before p. HasTwoTypes query p) query.preds
        → WellFormedQuery query → IsAccepted catalogue text query }
{}

/// A statement whose names are all defined, and whose quantifiers' names differ, means a query.
/// Where a text says it, it keeps the limits, and no predicate compares two types, the query is
/// well formed.
pub fn clear_statements_mean_queries()
    ensures means { (c : Catalogue) (q : QueryStatement) → WellFormedCatalogue c
        → (NamesUnknown c q → ⊥) → (DefinesTwice q → ⊥)
        → (query : Query) × (query_of c q ≡ Some query) }
    ensures formed { (c : Catalogue) (text : List ℕ) (q : QueryStatement) (query : Query)
        → WellFormedCatalogue c → Says text q → (DefinesTwice q → ⊥)
        → ((what : LimitKind) → Beyond q what → ⊥) → query_of c q ≡ Some query
        → NoneHas (λ before p. HasTwoTypes query p) query.preds → WellFormedQuery query }
{}

/// A text that spells a well-formed query has no fault, unless its tokens have one.
pub fn well_formed_queries_have_no_fault()
    ensures { (c : Catalogue) (text : List ℕ) (query : Query) → fault_of text ≡ None
        → SpellsQuery c text query → WellFormedQuery query → (fault : QueryFault)
        → HasFault c text fault → ⊥ }
{}

/// One text spells at most one query over a catalogue.
pub fn one_query()
    ensures text { (catalogue : Catalogue) (text : List ℕ) (q r : Query)
        → SpellsQuery catalogue text q → SpellsQuery catalogue text r → q ≡ r }
    ensures statement { (lexemes : List Lexeme) (q r : QueryStatement)
        → SpellsQueryStatement lexemes q → SpellsQueryStatement lexemes r → q ≡ r }
{}

/// A query is over the catalogue that it was read against.
pub fn queries_keep_their_catalogue()
    ensures { (catalogue : Catalogue) (text : List ℕ) (query : Query)
        → SpellsQuery catalogue text query → query.catalogue ≡ catalogue }
{}

/// The predicates of a query that a text spells have the usual selectivities.
pub fn spelled_queries_have_usual_selectivities()
    ensures { (catalogue : Catalogue) (text : List ℕ) (query : Query)
        → SpellsQuery catalogue text query → weighed [] query ≡ query }
{}

/// What a statement spells that selects the only column of the only table.
pub fn the_smallest_query_is_spelled()
    ensures { (catalogue : Catalogue) (text : List ℕ) (t : TableDef) (c : ColumnDef)
        → catalogue.tables ≡ t ∷ [] → t.columns ≡ c ∷ [] → IsFree t.name
        → IsStatements text (query_lexemes (only_column t.name c.name) ∷ [])
        → SpellsQuery catalogue text (record {
          catalogue = catalogue;
          quants = record
              { name = t.name; table = 0 } ∷ [];
          select = record { quant = record { 0 = 0 }; column = 0 }
              ∷ [];
          preds = [];
          order = [];
          site = None;
        }) }
{}
