// The laws of the definitions, each the clause of a function that does nothing.

ghost use Rattle.std.specs.Prelude.{◌≡◌, ◌↔◌, ◌⊎◌, ◌≤◌, ℕ, List, length, Result, Ok, Err};
ghost use Rattle.std.specs.List.{AllPass};
ghost use Rattle.sb_text.specs.Limits.{most_text_bytes};
ghost use Rattle.sb_text.specs.Front.{in_comment};
ghost use Rattle.star_model.specs.Judging.{node_count};
ghost use Rattle.star_model.specs.declared.derivations.Deriv.{Deriv};
ghost use Rattle.spelling.specs.Layout.{commented, line};
ghost use Rattle.star_model.specs.Every.{Every};
ghost use Rattle.derivation_reading.specs.Derivations.{NamesWord, steps, canonical, IsWritable, SpellsDerivation};
ghost use Rattle.derivation_reading.specs.declared.fault.DerivFault.{DerivFault};
ghost use Rattle.derivation_reading.specs.declared.fault.DerivFault.TheVariants.{Memory};
ghost use Rattle.derivation_reading.specs.Ancestors.{IsLow};
ghost use Rattle.derivation_reading.specs.Faults.{IsFirstFault, IsAccepted, ReadsDerivation};
ghost use Rattle.star_model.specs.Monotone.{nodes};

/// One text has at most one first fault.
pub fn one_fault()
    ensures { (text : List ℕ) (f g : DerivFault) → IsFirstFault text f → IsFirstFault text g
        → f ≡ g }
{}

/// Each text that may be read has a verdict: it is accepted, or has a first fault.
pub fn some_verdict()
    ensures { (text : List ℕ) → length text ≤ most_text_bytes → ((tree : Deriv) × IsAccepted text tree)
        ⊎ ((fault : DerivFault) × IsFirstFault text fault) }
{}

/// One text is accepted as at most one derivation.
pub fn one_derivation()
    ensures { (text : List ℕ) (t u : Deriv) → IsAccepted text t → IsAccepted text u → t ≡ u }
{}

/// A text is accepted exactly where it spells a derivation of at most 2,048 levels.
pub fn spelled_derivations_are_accepted()
    ensures { (text : List ℕ) (tree : Deriv) → IsAccepted text tree
        ↔ (SpellsDerivation text tree × IsLow tree) }
{}

/// A derivation has no more nodes than the text that spells it has bytes.
pub fn derivations_have_few_nodes()
    ensures { (text : List ℕ) (tree : Deriv) → SpellsDerivation text tree
        → node_count tree ≤ length text }
{}

/// What is printed is read back: reading a text that spells a derivation of at most 2,048 levels
/// gives this derivation, or memory is wanting. So it is with its canonical text, also behind a
/// comment, where it can be written and its STARs are named by words.
pub fn derivations_are_read_back()
    ensures spelled { (text : List ℕ) (tree : Deriv) → SpellsDerivation text tree → IsLow tree
        → (result : Result Deriv DerivFault) → ReadsDerivation text result → (result ≡ Ok tree)
        ⊎ (result ≡ Err Memory) }
    ensures printed { (tree : Deriv) → IsWritable tree → Every NamesWord (steps tree) → IsLow tree
        → (result : Result Deriv DerivFault) → ReadsDerivation (canonical tree) result
        → (result ≡ Ok tree) ⊎ (result ≡ Err Memory) }
    ensures commented { (line : List ℕ) (tree : Deriv) → AllPass in_comment line → IsWritable tree
        → Every NamesWord (steps tree) → IsLow tree → (result : Result Deriv DerivFault)
        → ReadsDerivation (commented line (canonical tree)) result → (result ≡ Ok tree)
        ⊎ (result ≡ Err Memory) }
{}

/// One text spells at most one derivation.
pub fn one_spelled_derivation()
    ensures { (text : List ℕ) (t u : Deriv) → SpellsDerivation text t → SpellsDerivation text u
        → t ≡ u }
{}

/// The canonical text of a derivation spells it where it can be written and its STARs are named by
/// words, and where any text spells it. A comment on a line of its own before it makes no
/// difference.
pub fn canonical_derivations_spell()
    ensures written { (tree : Deriv) → IsWritable tree → Every NamesWord (steps tree)
        → SpellsDerivation (canonical tree) tree }
    ensures spelled { (text : List ℕ) (tree : Deriv) → SpellsDerivation text tree
        → SpellsDerivation (canonical tree) tree }
    ensures commented { (line : List ℕ) (tree : Deriv) → AllPass in_comment line → IsWritable tree
        → Every NamesWord (steps tree) → SpellsDerivation (commented line (canonical tree)) tree }
{}
