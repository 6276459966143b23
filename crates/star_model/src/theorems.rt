// The laws of the definitions, each the clause of a function that does nothing.

ghost use Rattle.std.specs.Prelude.{◌≡◌, ◌≢◌, ℕ, ◌<◌, ◌≤◌, ◌+◌, ◌-◌, ◌*◌, ◌^◌, max, Bool, true, false, ◌&&◌, ◌||◌, not, nat_eq, ◌↔◌, List as Seq, [], ◌∷◌, ◌++◌, Some, None, if◌then◌else◌, replicate, length, map, All, IsSortedBy, filter};
ghost use Rattle.std.specs.List.{count_by, list_all, range_with_len};
ghost use Rattle.star_model.specs.Every.{Every};
ghost use Rattle.star_model.specs.FlavourWords.{flavour_word, class_word};
ghost use Rattle.star_model.specs.Selectivity.{same_class, select_of, weighed};
ghost use Rattle.star_model.specs.Numbers.{top, cut_sum, cut_difference, cut_product, cut_quotient, quotient_up};
ghost use Rattle.star_model.specs.Sets.{has, members, set_of, single, union, meet, minus, is_within, size, splits, is_pair, IsSplit};
ghost use Rattle.star_model.specs.Columns.{Columns, has_column, columns_where, union_columns, is_column_at, with_column, is_columns_within};
ghost use Rattle.star_model.specs.Monotone.{passes, first_offending, IsMonotone};
ghost use Rattle.star_model.specs.Costs.{row_of, formula_of, costs_of, same_flavour, same_which};
ghost use Rattle.star_model.specs.Vectors.{begins, is_better, same_column, same_numbers};
ghost use Rattle.star_model.specs.Requirements.{satisfies};
ghost use Rattle.star_model.specs.Canon.{ColPair, AreEqual, is_lower, least_equal, canon};
ghost use Rattle.star_model.specs.Answers.{Data, Assignment, IsAnswer, is_earlier, is_same, makes_true, values_of_columns};
ghost use Rattle.star_model.specs.Operators.{step, may_apply, each_touches, unpriced};
ghost use Rattle.star_model.specs.Predicates.{preds_in};
ghost use Rattle.star_model.specs.Exchange.{HasCard, IsExchangeable, ChainsAreExchangeable};
ghost use Rattle.star_model.specs.Kinds.{MeansItsKind, kind_of, kind_of_range, kind_of_value};
ghost use Rattle.star_model.specs.Meaning.{meaning, as_stream, member_at, members_of};
ghost use Rattle.star_model.specs.Streams.{tables_pass, has_tables};
ghost use Rattle.star_model.specs.WellFormed.{WellFormedQuery, Each};
ghost use Rattle.star_model.specs.Plans.{vector};
ghost use Rattle.star_model.specs.Expected.{Expected};
ghost use Rattle.star_model.specs.Goals.{is_target};
ghost use Rattle.star_model.specs.Derivations.{plan_of, is_valid, HasVector, IsRoot};
ghost use Rattle.star_model.specs.Judging.{Vector, judge, judge_root, invalid_number};
ghost use Rattle.star_model.specs.InvalidNodes.{first_invalid};
ghost use Rattle.std.specs.Cmp.Lexicographic.{slice_cmp};
ghost use Rattle.std.specs.declared.cmp.Ordering.{Ordering};
ghost use Rattle.star_model.specs.declared.catalogue.Value.{Value};
ghost use Rattle.star_model.specs.declared.columns.Col.{Col};
ghost use Rattle.star_model.specs.declared.costs.CostEntry.{CostEntry};
ghost use Rattle.star_model.specs.declared.formula.Formula.{Formula};
ghost use Rattle.star_model.specs.declared.query.Query.{Query};
ghost use Rattle.star_model.specs.declared.plans.Op.{Op};
ghost use Rattle.star_model.specs.declared.plans.Plan.{Plan};
ghost use Rattle.star_model.specs.declared.plans.Props.{Props};
ghost use Rattle.star_model.specs.declared.plans.Require.{Require};
ghost use Rattle.star_model.specs.declared.rules.Class.{Class};
ghost use Rattle.star_model.specs.declared.selects.SelectEntry.{SelectEntry};
ghost use Rattle.star_model.specs.declared.rules.Flavour.{Flavour};
ghost use Rattle.star_model.specs.declared.rules.Kind.{Kind};
ghost use Rattle.star_model.specs.declared.rules.Kind.TheVariants as kind;
ghost use Rattle.star_model.specs.declared.rules.Range.{Range};
ghost use Rattle.star_model.specs.declared.rules.ValueExpr.{ValueExpr};
ghost use Rattle.star_model.specs.declared.rules.Which.{Which};
ghost use Rattle.star_model.specs.declared.rules.RuleFile.{RuleFile};
ghost use Rattle.star_model.specs.declared.derivations.Deriv.{Deriv};
ghost use Rattle.star_model.specs.declared.values.RuleValue.{RuleValue};

/// No result passes 10^18.
pub fn results_are_cut()
    ensures sum { (a b : ℕ) → cut_sum a b ≤ top }
    ensures difference { (a b : ℕ) → cut_difference a b ≤ top }
    ensures product { (a b : ℕ) → cut_product a b ≤ top }
    ensures quotient { (a b : ℕ) → cut_quotient a b ≤ top }
{}

/// A result that fits is not changed.
pub fn results_that_fit_are_exact()
    ensures sum { (a b : ℕ) → a + b ≤ top → cut_sum a b ≡ a + b }
    ensures difference { (a b : ℕ) → a ≤ top → cut_difference a b ≡ a - b }
    ensures product { (a b : ℕ) → a * b ≤ top → cut_product a b ≡ a * b }
    ensures quotient { (a b : ℕ) → quotient_up a b ≤ top → cut_quotient a b ≡ quotient_up a b }
{}

/// A result rises with its first part and, where it is a sum or a product, with its second; a
/// difference or a quotient falls with its second.
pub fn results_rise_and_fall()
    ensures sum { (a b c d : ℕ) → a ≤ c → b ≤ d → cut_sum a b ≤ cut_sum c d }
    ensures difference { (a b c d : ℕ) → a ≤ c → d ≤ b → cut_difference a b ≤ cut_difference c d }
    ensures product { (a b c d : ℕ) → a ≤ c → b ≤ d → cut_product a b ≤ cut_product c d }
    ensures quotient { (a b c d : ℕ) → a ≤ c → d ≤ b → cut_quotient a b ≤ cut_quotient c d }
{}

/// A quotient is the least whole number that, times the divisor, is not below the dividend. A
/// divisor of 0 counts as 1.
pub fn quotients_round_up()
    ensures enough { (a b : ℕ) → a ≤ quotient_up a b * max 1 b }
    ensures least { (a b m : ℕ) → a ≤ m * max 1 b → quotient_up a b ≤ m }
{}

/// What is a member of a set that an operation gives.
pub fn sets_go_by_members()
    ensures empty { (n : ℕ) → has 0 n ≡ false }
    ensures union { (s t n : ℕ) → has (union s t) n ≡ (has s n || has t n) }
    ensures meet { (s t n : ℕ) → has (meet s t) n ≡ (has s n && has t n) }
    ensures minus { (s t n : ℕ) → t < 2 ^ 32 → n < 32
        → has (minus s t) n ≡ (has s n && not (has t n)) }
    ensures single { (k n : ℕ) → has (single k) n ≡ nat_eq n k }
    ensures set_of { (p : ℕ → Bool) (n : ℕ) → n < 32 → has (set_of p) n ≡ p n }
    ensures beyond { (s n : ℕ) → s < 2 ^ 32 → 32 ≤ n → has s n ≡ false }
    ensures within { (s t : ℕ) → (is_within s t ≡ true)
        ↔ ((n : ℕ) → n < 32 → has s n ≡ true → has t n ≡ true) }

    // Sets with the same members are one.
    ensures same { (s t : ℕ) → s < 2 ^ 32 → t < 2 ^ 32 → ((n : ℕ) → n < 32 → has s n ≡ has t n)
        → s ≡ t }
{}

/// A set has no member from 32 on: it is a number of 32 bits.
pub fn sets_fit()
    ensures union { (s t : ℕ) → s < 2 ^ 32 → t < 2 ^ 32 → union s t < 2 ^ 32 }
    ensures meet { (s t : ℕ) → s < 2 ^ 32 → meet s t < 2 ^ 32 }
    ensures minus { (s t : ℕ) → s < 2 ^ 32 → minus s t < 2 ^ 32 }
    ensures single { (k : ℕ) → k < 32 → single k < 2 ^ 32 }
    ensures set_of { (p : ℕ → Bool) → set_of p < 2 ^ 32 }
{}

/// The members of a set, and the numbers that are kept of a range, are below its end.
pub fn members_are_below()
    ensures kept { (test : ℕ → Bool) (bound k n : ℕ) → k + n ≤ bound
        → Every (λ m. m < bound) (filter test (range_with_len k n)) }
    ensures members { (s : ℕ) → Every (λ m. m < 32) (members s) }
{}

/// Operators are written with words of their own.
pub fn words_tell_operators_apart()
    ensures { (f g : Flavour) → flavour_word f ≡ flavour_word g → f ≡ g }
{}

/// What is a column of a set that an operation gives.
pub fn column_sets_go_by_columns()
    ensures empty { (c : Col) → has_column (replicate 12 0) c ≡ false }
    ensures insert { (s : Columns) (c d : Col) → d.quant.0 < 12 → d.column < 32
        → has_column (with_column s c) d ≡ (has_column s d || same_column c d) }
    ensures union { (s t : Columns) (c : Col) → c.quant.0 < 12
        → has_column (union_columns s t) c ≡ (has_column s c || has_column t c) }
    ensures passing { (p : ℕ → ℕ → Bool) (c : Col) → c.quant.0 < 12 → c.column < 32
        → has_column (columns_where p) c ≡ p c.quant.0 c.column }
    ensures within { (s t : Columns) → (is_columns_within s t ≡ true)
        ↔ ((c : Col) → c.quant.0 < 12 → c.column < 32 → has_column s c ≡ true
        → has_column t c ≡ true) }
{}

/// Sets of the columns that pass a test: what an operation gives of them is the set of those that
/// pass another.
pub fn column_sets_go_by_tests()
    ensures empty { columns_where (λ n m. false) ≡ replicate 12 0 }
    ensures insert { (p : ℕ → ℕ → Bool) (c : Col)
        → with_column (columns_where p) c ≡ columns_where (λ n m. p n m || is_column_at n m c) }
    ensures union { (p r : ℕ → ℕ → Bool) → union_columns (columns_where p) (columns_where r)
        ≡ columns_where (λ n m. p n m || r n m) }

    // Tests that agree give one set.
    ensures same { (p r : ℕ → ℕ → Bool) → ((n m : ℕ) → n < 12 → m < 32 → p n m ≡ r n m)
        → columns_where p ≡ columns_where r }
{}

/// The list of splits has each ordered pair of nonempty disjoint sets with that union once, and no
/// other pair.
pub fn each_split_comes_once()
    ensures once { (s a b : ℕ) → s < 2 ^ 32 → IsSplit s a b
        → count_by (is_pair a b) (splits s) ≡ 1 }
    ensures only { (s a b : ℕ) → s < 2 ^ 32 → 0 < count_by (is_pair a b) (splits s)
        → IsSplit s a b }
{}

/// A part of a set that isn't the whole set has fewer members, and so has each part of a split.
pub fn parts_are_smaller()
    ensures part { (s t : ℕ) → s < 2 ^ 32 → t < 2 ^ 32 → is_within t s ≡ true → t ≢ s
        → size t < size s }
    ensures left { (s a b : ℕ) → s < 2 ^ 32 → IsSplit s a b
        → (a < s) × (is_within a s ≡ true) × (size a < size s) }
    ensures right { (s a b : ℕ) → s < 2 ^ 32 → IsSplit s a b
        → (b < s) × (is_within b s ≡ true) × (size b < size s) }
{}

/// A formula that passes the monotone check doesn't fall where no cost of an input falls.
pub fn passing_is_monotone()
    ensures { IsMonotone }
{}

/// A formula passes exactly where no node offends.
pub fn passing_is_without_offence()
    ensures { (f : Formula) → (passes f ≡ true) ↔ (first_offending f ≡ None) }
{}

/// With a further entry, whose operator and cost have no formula yet, a list of formulas has its
/// formula there, and elsewhere what it had.
pub fn entries_add_formulas()
    ensures { (costs : Seq CostEntry) (e : CostEntry) (f : Flavour) (w : Which)
        → formula_of costs e.flavour e.which ≡ None
        → formula_of (costs ++ e ∷ []) f w ≡ (if same_flavour e.flavour f
        && same_which e.which w then Some e.formula else formula_of costs f w) }
{}

/// With a further entry, whose class has no formulas yet, a list of selectivities has its formulas
/// there, and elsewhere what it had.
pub fn entries_add_selectivities()
    ensures { (selects : Seq SelectEntry) (e : SelectEntry) (c : Class)
        → select_of selects e.class ≡ None → select_of (selects ++ e ∷ []) c
        ≡ (if same_class e.class c then Some e else select_of selects c) }
{}

/// Classes that the test finds the same, or that are written with one word, are one.
pub fn classes_are_told_apart()
    ensures test { (c d : Class) → same_class c d ≡ true → c ≡ d }
    ensures word { (c d : Class) → class_word c ≡ class_word d → c ≡ d }
{}

/// Weighing a query looks at no selectivity that it has, and changes nothing else.
pub fn weighing_changes_selectivities()
    ensures again { (a b : Seq SelectEntry) (q : Query) → weighed a (weighed b q) ≡ weighed a q }
    ensures formed { (selects : Seq SelectEntry) (q : Query) → WellFormedQuery q
        → WellFormedQuery (weighed selects q) }
{}

/// Better than or equal to is a partial order of vectors without their numbers of rows.
pub fn better_is_an_order()
    ensures reflexive { (v : Props) → is_better v v ≡ true }
    ensures transitive { (u v w : Props) → is_better u v ≡ true → is_better v w ≡ true
        → is_better u w ≡ true }
    ensures antisymmetric { (v w : Props) → is_better v w ≡ true → is_better w v ≡ true
        → record v { card = w.card } ≡ w }
{}

/// A better vector costs no more, and it has the target of each goal whose target the other has.
pub fn better_plans_serve_the_goal()
    ensures cost { (v w : Props) → is_better v w ≡ true → v.cost ≤ w.cost }
    ensures target { (q : Query) (s j : ℕ) (v w : Props) → is_better v w ≡ true
        → is_target q s j w ≡ true → is_target q s j v ≡ true }
{}

/// The test of two lists of numbers decides that they are one.
pub fn lists_that_are_the_same_are_one()
    ensures one { (xs ys : Seq ℕ) → same_numbers xs ys ≡ true → xs ≡ ys }
    ensures itself { (xs : Seq ℕ) → same_numbers xs xs ≡ true }
{}

/// Operators that have one row of the table are one, and so are those that the test finds the same.
pub fn operators_have_rows_of_their_own()
    ensures row { (f g : Flavour) → row_of f ≡ row_of g → f ≡ g }
    ensures same { (f g : Flavour) → same_flavour f g ≡ true → f ≡ g }
{}

/// The vector of an operator over inputs is that of its row of the table, but for its costs; there
/// is one only where the operator is applicable, and each predicate that it applies touches its
/// tables.
pub fn vectors_go_by_the_table()
    ensures { (q : Query) (costs : Seq CostEntry) (o : Op) (ins : Seq Props) (r : Props)
        → step q costs o ins ≡ Some r → (may_apply q o ins ≡ true) × (each_touches q o ins ≡ true)
        × (r ≡ record (unpriced q o ins) { cost = r.cost; rescan = r.rescan }) }
{}

/// In one query the tables and predicates of a plan fix its number of rows.
pub fn plans_have_the_estimate()
    ensures { (q : Query) (costs : Seq CostEntry) (p : Plan) (v : Props) → vector q costs p ≡ Some v
        → HasCard q v }
{}

/// With better inputs an applicable operator stays applicable, and its result is better; likewise a
/// chain of Glue; and a better vector satisfies what the other does.
pub fn better_inputs_serve()
    ensures operators { IsExchangeable }
    ensures chains { ChainsAreExchangeable }
    ensures satisfying { (q : Query) (u v : Props) (r : Require) → is_better u v ≡ true
        → satisfies q v r ≡ true → satisfies q u r ≡ true }
{}

/// The least equal column is equal to the column by a chain of equalities, and no equal column is
/// lower.
pub fn least_equal_columns_are_least()
    ensures equal { (pairs : Seq ColPair) (x : Col) → AreEqual pairs x (least_equal pairs x) }
    ensures least { (pairs : Seq ColPair) (x y : Col) → AreEqual pairs x y
        → is_lower y (least_equal pairs x) ≡ false }
{}

/// Of two members of an answer one is earlier by a list of columns exactly where it is by the
/// list's canonical form; so a list of members is sorted by the one exactly where it is by the
/// other.
pub fn canonical_orders_sort_alike()
    ensures earlier { (q : Query) (data_ : Data) (s preds : ℕ) → s < 2 ^ 32
        → (outer : Assignment) (cols : Seq Col) (a b : Assignment)
        → IsAnswer q data_ s preds outer a → IsAnswer q data_ s preds outer b
        → is_earlier q data_ (canon q preds s cols) a b ≡ is_earlier q data_ cols a b }
    ensures sorted { (q : Query) (data_ : Data) (s preds : ℕ) → s < 2 ^ 32
        → (outer : Assignment) (cols : Seq Col) (list : Seq Assignment)
        → All (IsAnswer q data_ s preds outer) list
        → IsSortedBy (is_earlier q data_ (canon q preds s cols)) list
        ↔ IsSortedBy (is_earlier q data_ cols) list }

    // So do any two that make the predicates true, by any comparison of values.
    ensures compared { (q : Query) (data_ : Data) (s : ℕ) (compare : Value → Value → Ordering)
        (preds : ℕ) (cols : Seq Col) (a b : Assignment)
        → list_all (makes_true q data_ a) (preds_in q preds) ≡ true
        → list_all (makes_true q data_ b) (preds_in q preds) ≡ true
        → slice_cmp compare (values_of_columns q data_ (canon q preds s cols) a)
        (values_of_columns q data_ (canon q preds s cols) b)
        ≡ slice_cmp compare (values_of_columns q data_ cols a) (values_of_columns q data_ cols b) }
{}

/// Values that the test finds the same are one.
pub fn values_that_are_the_same_are_one()
    ensures { (v w : Value) → is_same v w ≡ true → v ≡ w }
{}

/// The canonical form of a prefix is a prefix of the canonical form; and where more equalities
/// hold, the canonical form of a canonical form is that of the list.
pub fn canonical_orders_keep_prefixes()
    ensures prefix { (q : Query) (preds s : ℕ) (xs ys : Seq Col) → begins xs ys ≡ true
        → begins (canon q preds s xs) (canon q preds s ys) ≡ true }
    ensures again { (q : Query) (preds more s t : ℕ)
        → ((n : ℕ) → has preds n ≡ true → has more n ≡ true)
        → ((n : ℕ) → has s n ≡ true → has t n ≡ true) → (cols : Seq Col)
        → canon q more t (canon q preds s cols) ≡ canon q more t cols }
{}

/// The canonical form of columns of a set's quantifiers has columns of these alone.
pub fn canonical_orders_keep_to_their_tables()
    ensures { (q : Query) (preds s : ℕ) (cols : Seq Col)
        → list_all (λ c. has s c.quant.0) cols ≡ true
        → list_all (λ c. has s c.quant.0) (canon q preds s cols) ≡ true }
{}

/// A well-kinded expression means a value of its kind.
pub fn values_have_their_kinds()
    ensures { (q : Query) → MeansItsKind (meaning q) }
{}

/// A stream that a well-kinded expression means has the quantifiers of a bound stream: where all
/// bound streams pass a test of them, as that there are some, it passes.
pub fn streams_have_bound_quantifiers()
    ensures each { (q : Query) (test : ℕ → Bool) (b : Seq RuleValue) (e : ValueExpr) (k : Kind)
        → kind_of (map kind_of_value b) e ≡ Some k → list_all (tables_pass test) b ≡ true
        → tables_pass test (meaning q b e) ≡ true }
    ensures some { (q : Query) (b : Seq RuleValue) (e : ValueExpr) (k : Kind)
        → kind_of (map kind_of_value b) e ≡ Some k → list_all has_tables b ≡ true
        → has_tables (meaning q b e) ≡ true }
    ensures stream { (q : Query) (test : ℕ → Bool) (b : Seq RuleValue) (e : ValueExpr)
        → kind_of (map kind_of_value b) e ≡ Some kind.Stream → list_all (tables_pass test) b ≡ true
        → test (as_stream (meaning q b e)).tables ≡ true }
{}

/// The members of a well-kinded range have its kind. None is a stream, so that each test of bound
/// streams is still passed where one is bound too. There are at most 64.
pub fn ranges_have_members_of_their_kind()
    ensures kind { (q : Query) (b : Seq RuleValue) (r : Range) (k : Kind)
        → kind_of_range (map kind_of_value b) r ≡ Some k
        → Each (λ v. kind_of_value v ≡ k) (members_of q b r) }
    ensures streams { (q : Query) (test : ℕ → Bool) (b : Seq RuleValue) (r : Range)
        → list_all (tables_pass test) (members_of q b r) ≡ true }
    ensures member { (b : Seq RuleValue) (r : Range) (k : Kind) (n : ℕ)
        → kind_of_range (map kind_of_value b) r ≡ Some k → kind_of_value (member_at r n) ≡ k }
    ensures no_stream { (test : ℕ → Bool) (r : Range) (n : ℕ)
        → tables_pass test (member_at r n) ≡ true }
    ensures few { (q : Query) → WellFormedQuery q → (b : Seq RuleValue) (r : Range)
        → length (members_of q b r) ≤ 64 }
{}

/// The walk over a derivation finds the vector of a valid one, which is that of its plan, and none
/// of another.
pub fn judging_finds_valid_derivations()
    ensures valid { (q : Query) (rules : RuleFile) (d : Deriv) (x : Expected) (n : ℕ)
        → (is_valid q rules d x ≡ true) ↔ ((v : Props) × (judge q rules d x n ≡ Vector v)) }
    ensures vector { (q : Query) (rules : RuleFile) (d : Deriv) (x : Expected) (n : ℕ) (v : Props)
        → (judge q rules d x n ≡ Vector v) ↔ HasVector q rules d x v }
    ensures plan { (q : Query) (rules : RuleFile) (d : Deriv) (x : Expected) (n : ℕ) (v : Props)
        → judge q rules d x n ≡ Vector v → (p : Plan) × (plan_of q rules d x ≡ Some p)
        × (vector q (costs_of rules) p ≡ Some v) }
{}

/// Of a whole tree it finds the vector exactly where the tree is a root derivation.
pub fn judging_finds_root_derivations()
    ensures { (q : Query) (rules : RuleFile) (tree : Deriv) (v : Props)
        → (judge_root q rules tree ≡ Vector v) ↔ IsRoot q rules tree v }
{}

/// Where it finds no vector, it finds the first node in preorder that is invalid: its number,
/// counted on from that of the top.
pub fn judging_finds_the_first_invalid_node()
    ensures { (q : Query) (rules : RuleFile) (d : Deriv) (x : Expected) (n : ℕ)
        → invalid_number (judge q rules d x n) ≡ first_invalid q rules d x n }
{}
