// The laws of the definitions, each the clause of a function that does nothing.

ghost use Rattle.std.specs.Prelude.{◌≡◌, ◌↔◌, ◌⊎◌, ◌<◌, ℕ, true, List, length, map, slice_get, All, Some, Result, Ok, Err};
ghost use Rattle.std.specs.Cmp.{IsTotalOrder};
ghost use Rattle.std.specs.Cmp.Lexicographic.{slice_cmp};
ghost use Rattle.std.specs.Ordering.{is_lt, is_eq};
ghost use Rattle.std.specs.declared.cmp.Ordering.TheVariants.{Equal};
ghost use Rattle.star_model.specs.Answers.{is_below, is_same, stands_before};
ghost use Rattle.star_model.specs.WellFormed.{type_of_value};
ghost use Rattle.star_model.specs.Data.{Record, table_rows};
ghost use Rattle.star_model.specs.declared.catalogue.Catalogue.{Catalogue};
ghost use Rattle.star_model.specs.declared.catalogue.TableDef.{TableDef};
ghost use Rattle.star_model.specs.declared.catalogue.Value.{Value};
ghost use Rattle.row_store.specs.declared.fault.TableFault.{TableFault};
ghost use Rattle.row_store.specs.declared.fault.TableFault.TheVariants.{Memory};
ghost use Rattle.row_store.specs.Faults.{HasNoFault, IsFirstFault, Loads};
ghost use Rattle.row_store.specs.Indexes.{IsIndexOf};
ghost use Rattle.row_store.specs.Comparing.{value_cmp};

/// The records of a table have exactly one first fault, or none.
pub fn one_fault()
    ensures at_most { (c : Catalogue) (table : ℕ) (records : List Record) (f g : TableFault)
        → IsFirstFault c table records f → IsFirstFault c table records g → f ≡ g }
    ensures or_none { (c : Catalogue) (table : ℕ) (records : List Record)
        → HasNoFault c table records ⊎ ((fault : TableFault) × IsFirstFault c table records fault) }
{}

/// The records of a table of the catalogue have no fault exactly where they hold rows, of which
/// there are at most 200,000.
pub fn records_without_fault_hold_rows()
    ensures { (c : Catalogue) (table : ℕ) (records : List Record) → table < length c.tables
        → HasNoFault c table records ↔ ((rows : List (List Value))
        × (table_rows c table records ≡ Some rows)) }
{}

/// Records that hold rows are loaded as these rows, or memory is wanting.
pub fn rows_are_loaded()
    ensures { (c : Catalogue) (table : ℕ) (records : List Record) → table < length c.tables
        → (rows : List (List Value)) → table_rows c table records ≡ Some rows
        → (result : Result (List (List Value)) TableFault) → Loads c table records result
        → (result ≡ Ok rows) ⊎ (result ≡ Err Memory) }
{}

/// Each row of a table has a value for each of its columns, of the column's type.
pub fn rows_fit_their_table()
    ensures { (c : Catalogue) (table : ℕ) (records : List Record) (definition : TableDef)
        (rows : List (List Value)) → slice_get c.tables table ≡ Some definition
        → table_rows c table records ≡ Some rows
        → All (λ row. map type_of_value row ≡ map (λ column. column.kind) definition.columns) rows }
{}

/// By one list of columns rows have one order.
pub fn one_index()
    ensures { (rows : List (List Value)) (columns a b : List ℕ) → IsIndexOf rows columns a
        → IsIndexOf rows columns b → a ≡ b }
{}

/// Comparing is a total order of all values, in which only equal ones tie; so it is of lists of
/// values.
pub fn values_are_in_order()
    ensures total { IsTotalOrder value_cmp }
    ensures equal { (v w : Value) → value_cmp v w ≡ Equal → v ≡ w }
    ensures lists { (vs ws : List Value) → slice_cmp value_cmp vs ws ≡ Equal → vs ≡ ws }
{}

/// It is the comparison of predicates and of orders, where the values have one type; and what
/// stands before by that is less in any case.
pub fn values_compare_as_in_answers()
    ensures less { (v w : Value) → type_of_value v ≡ type_of_value w
        → is_lt (value_cmp v w) ≡ is_below v w }
    ensures same { (v w : Value) → type_of_value v ≡ type_of_value w
        → is_eq (value_cmp v w) ≡ is_same v w }
    ensures before { (vs ws : List Value) → stands_before vs ws ≡ true
        → is_lt (slice_cmp value_cmp vs ws) ≡ true }
{}
