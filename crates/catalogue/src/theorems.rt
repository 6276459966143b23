// The laws of the definitions, each the clause of a function that does nothing.

ghost use Rattle.std.specs.Prelude.{◌≡◌, ◌↔◌, ◌⊎◌, ℕ, List, None, Some, Result, Ok, Err, [], ◌∷◌, map};
ghost use Rattle.sb_text.specs.Refusal.{fault_of};
ghost use Rattle.star_model.specs.WellFormed.{WellFormedCatalogue};
ghost use Rattle.star_model.specs.declared.catalogue.Catalogue.{Catalogue};
ghost use Rattle.spelling.specs.Firsts.{NoneHas};
ghost use Rattle.catalogue.specs.Catalogues.{CatalogueStatement, catalogue_of, SpellsCatalogue, canonical, catalogue_statements, Site, Table, TablePart, table_from, catalogue_lexemes, SpellsCatalogueStatement};
ghost use Rattle.catalogue.specs.declared.fault.CatFault.{CatFault};
ghost use Rattle.catalogue.specs.declared.fault.CatFault.TheVariants.{Memory};
ghost use Rattle.catalogue.specs.Defined.{NamesUnknown, DefinesTwice};
ghost use Rattle.catalogue.specs.Beyond.{IsBeyond};
ghost use Rattle.catalogue.specs.Faults.{SaysStatements, HasFault, IsFirstFault, IsAccepted, ReadsCatalogue};
ghost use Rattle.spelling.specs.Lexemes.{Lexeme, IsStatements};
ghost use Rattle.star_model.specs.Every.{HasItem};
ghost use Rattle.star_model.specs.declared.catalogue.SiteDef.{SiteDef};

/// One text has at most one first fault.
pub fn one_fault()
    ensures { (text : List ℕ) (f g : CatFault) → IsFirstFault text f → IsFirstFault text g → f ≡ g }
{}

/// Each text has a verdict: it is accepted, or has a first fault.
pub fn some_verdict()
    ensures { (text : List ℕ) → ((catalogue : Catalogue) × IsAccepted text catalogue)
        ⊎ ((fault : CatFault) × IsFirstFault text fault) }
{}

/// A text whose tokens and statements have no fault has none. Statements that name only what is
/// defined, and define nothing twice, mean a catalogue. What statements mean that define nothing
/// twice and keep the limits is well formed.
pub fn statements_without_fault_are_accepted()
    ensures clear { (text : List ℕ) (statements : List CatalogueStatement) → fault_of text ≡ None
        → SaysStatements text statements → NoneHas NamesUnknown statements
        → NoneHas DefinesTwice statements → NoneHas IsBeyond statements → (fault : CatFault)
        → HasFault text fault → ⊥ }
    ensures meant { (statements : List CatalogueStatement) → NoneHas NamesUnknown statements
        → NoneHas DefinesTwice statements → (catalogue : Catalogue)
        × (catalogue_of statements ≡ Some catalogue) }
    ensures formed { (text : List ℕ) (statements : List CatalogueStatement)
        → SaysStatements text statements → NoneHas DefinesTwice statements
        → NoneHas IsBeyond statements → (catalogue : Catalogue)
        → catalogue_of statements ≡ Some catalogue → WellFormedCatalogue catalogue }
{}

/// A text is accepted exactly where it spells a well-formed catalogue.
pub fn spelled_catalogues_are_accepted()
    ensures { (text : List ℕ) (c : Catalogue) → IsAccepted text c
        ↔ (SpellsCatalogue text c × WellFormedCatalogue c) }
{}

/// What is printed is read back: reading the canonical text of a well-formed catalogue gives this
/// catalogue, or memory is wanting. The same holds for each other text that spells it.
pub fn catalogues_are_read_back()
    ensures spelled { (text : List ℕ) (c : Catalogue) → SpellsCatalogue text c
        → WellFormedCatalogue c → (result : Result Catalogue CatFault) → ReadsCatalogue text result
        → (result ≡ Ok c) ⊎ (result ≡ Err Memory) }
    ensures printed { (c : Catalogue) → WellFormedCatalogue c → (result : Result Catalogue CatFault)
        → ReadsCatalogue (canonical c) result → (result ≡ Ok c) ⊎ (result ≡ Err Memory) }
{}

/// One text spells at most one catalogue, and so does each of its statements.
pub fn one_catalogue()
    ensures text { (text : List ℕ) (c d : Catalogue) → SpellsCatalogue text c
        → SpellsCatalogue text d → c ≡ d }
    ensures statement { (lexemes : List Lexeme) (s t : CatalogueStatement)
        → SpellsCatalogueStatement lexemes s → SpellsCatalogueStatement lexemes t → s ≡ t }
{}

/// How a well-formed catalogue is written means it, and is what its canonical text has to say.
pub fn catalogues_are_written()
    ensures means { (c : Catalogue) → WellFormedCatalogue c
        → catalogue_of (catalogue_statements c) ≡ Some c }
    ensures spelled { (c : Catalogue) → WellFormedCatalogue c → (text : List ℕ)
        → IsStatements text (map catalogue_lexemes (catalogue_statements c))
        → SpellsCatalogue text c }
{}

/// The canonical text of a well-formed catalogue spells it.
pub fn canonical_catalogues_spell()
    ensures { (c : Catalogue) → WellFormedCatalogue c → SpellsCatalogue (canonical c) c }
{}

/// One site, and one table at it, are a catalogue.
pub fn the_smallest_catalogue_is_spelled()
    ensures { (text : List ℕ) (s : SiteDef) (t : TablePart) → t.site ≡ s.name → HasItem t.columns
        → IsStatements text (catalogue_lexemes (Site s) ∷ catalogue_lexemes (Table t) ∷ [])
        → SpellsCatalogue text (record {
          sites = s ∷ [];
          tables = table_from 0 t
              ∷ [];
          indexes = [];
        }) }
{}
