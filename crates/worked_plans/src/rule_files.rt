// Written by tools/worked_plans.
// What the definitions say of rule files, accepted and refused.
ghost use Rattle.worked_plans.specs.Claims.{HasNoFault, HasFault};
ghost use Rattle.worked_plans.specs.RuleFiles as rules;
ghost use Rattle.star_model.specs.declared.faults.RuleFault.TheVariants as fault;
ghost use Rattle.star_model.specs.declared.faults.Root.TheVariants as root;
ghost use Rattle.star_model.specs.declared.rules.Flavour.TheVariants as flavour;
ghost use Rattle.star_model.specs.declared.rules.Which.TheVariants as which;

/// `generator.rules` has no fault that a test finds.
pub fn accepted_generator()
    ensures { HasNoFault rules.generator }
{}

/// `hash.rules` has no fault that a test finds.
pub fn accepted_hash()
    ensures { HasNoFault rules.hash }
{}

/// `heaps.rules` has no fault that a test finds.
pub fn accepted_heaps()
    ensures { HasNoFault rules.heaps }
{}

/// `intersect.rules` has no fault that a test finds.
pub fn accepted_intersect()
    ensures { HasNoFault rules.intersect }
{}

/// `merge.rules` has no fault that a test finds.
pub fn accepted_merge()
    ensures { HasNoFault rules.merge }
{}

/// `pushdown.rules` has no fault that a test finds.
pub fn accepted_pushdown()
    ensures { HasNoFault rules.pushdown }
{}

/// `skewed.rules` has no fault that a test finds.
pub fn accepted_skewed()
    ensures { HasNoFault rules.skewed }
{}

/// `standard.rules` has no fault that a test finds.
pub fn accepted_standard()
    ensures { HasNoFault rules.standard }
{}

/// `stored_heaps.rules` has no fault that a test finds.
pub fn accepted_stored_heaps()
    ensures { HasNoFault rules.stored_heaps }
{}

/// `stored_tiny.rules` has no fault that a test finds.
pub fn accepted_stored_tiny()
    ensures { HasNoFault rules.stored_tiny }
{}

/// `storing.rules` has no fault that a test finds.
pub fn accepted_storing()
    ensures { HasNoFault rules.storing }
{}

/// `tie.rules` has no fault that a test finds.
pub fn accepted_tie()
    ensures { HasNoFault rules.tie }
{}

/// `tiny.rules` has no fault that a test finds.
pub fn accepted_tiny()
    ensures { HasNoFault rules.tiny }
{}

/// `tall.rules` has no fault that a test finds.
pub fn accepted_tall()
    ensures { HasNoFault rules.tall }
{}

/// `variables.rules` has no fault that a test finds.
pub fn accepted_variables()
    ensures { HasNoFault rules.variables }
{}

/// `wide.rules` has no fault that a test finds.
pub fn accepted_wide()
    ensures { HasNoFault rules.wide }
{}

/// `for_all_name.rules`: name defined twice in statement 9.
pub fn refused_for_all_name()
    ensures { HasFault rules.for_all_name (fault.Twice 9) }
{}

/// `for_all_twice.rules`: name defined twice in statement 10.
pub fn refused_for_all_twice()
    ensures { HasFault rules.for_all_twice (fault.Twice 10) }
{}

/// `formula_twice.rules`: name defined twice in statement 11.
pub fn refused_formula_twice()
    ensures { HasFault rules.formula_twice (fault.Twice 11) }
{}

/// `no_access_root.rules`: no star AccessRoot.
pub fn refused_no_access_root()
    ensures { HasFault rules.no_access_root (fault.NoRoot root.AccessRoot) }
{}

/// `no_formula.rules`: no formula for FILTER.
pub fn refused_no_formula()
    ensures { HasFault rules.no_formula (fault.NoFormula flavour.Filter) }
{}

/// `no_join_root.rules`: no star JoinRoot.
pub fn refused_no_join_root()
    ensures { HasFault rules.no_join_root (fault.NoRoot root.JoinRoot) }
{}

/// `no_rescan.rules`: no formula for STORE.
pub fn refused_no_rescan()
    ensures { HasFault rules.no_rescan (fault.NoFormula flavour.Store) }
{}

/// `no_ship.rules`: no formula for SHIP.
pub fn refused_no_ship()
    ensures { HasFault rules.no_ship (fault.NoFormula flavour.Ship) }
{}

/// `no_sort.rules`: no formula for SORT.
pub fn refused_no_sort()
    ensures { HasFault rules.no_sort (fault.NoFormula flavour.Sort) }
{}

/// `not_monotone.rules`: cost of SORT is not monotone at node 3.
pub fn refused_not_monotone()
    ensures { HasFault rules.not_monotone (fault.NotMonotone flavour.Sort which.Cost 3) }
{}

/// `rescan_not_monotone.rules`: rescan of SORT is not monotone at node 1.
pub fn refused_rescan_not_monotone()
    ensures { HasFault rules.rescan_not_monotone (fault.NotMonotone flavour.Sort which.Rescan 1) }
{}

/// `same_names.rules`: name defined twice in statement 9.
pub fn refused_same_names()
    ensures { HasFault rules.same_names (fault.Twice 9) }
{}

/// `selectivity_twice.rules`: name defined twice in statement 27.
pub fn refused_selectivity_twice()
    ensures { HasFault rules.selectivity_twice (fault.Twice 27) }
{}

/// `star_twice.rules`: name defined twice in statement 11.
pub fn refused_star_twice()
    ensures { HasFault rules.star_twice (fault.Twice 11) }
{}

/// `too_tall.rules`: statement 9 has height 17.
pub fn refused_too_tall()
    ensures { HasFault rules.too_tall (fault.TooTall 9 17) }
{}

/// `too_wide.rules`: statement 9 has weight 4097.
pub fn refused_too_wide()
    ensures { HasFault rules.too_wide (fault.TooWide 9 4097) }
{}

/// `unknown_in_condition.rules`: unknown name in statement 10.
pub fn refused_unknown_in_condition()
    ensures { HasFault rules.unknown_in_condition (fault.Unknown 10) }
{}

/// `unknown_in_input.rules`: unknown name in statement 9.
pub fn refused_unknown_in_input()
    ensures { HasFault rules.unknown_in_input (fault.Unknown 9) }
{}

/// `unknown_in_range.rules`: unknown name in statement 10.
pub fn refused_unknown_in_range()
    ensures { HasFault rules.unknown_in_range (fault.Unknown 10) }
{}

/// `unknown_name.rules`: unknown name in statement 9.
pub fn refused_unknown_name()
    ensures { HasFault rules.unknown_name (fault.Unknown 9) }
{}

/// `unknown_star.rules`: unknown name in statement 9.
pub fn refused_unknown_star()
    ensures { HasFault rules.unknown_star (fault.Unknown 9) }
{}

/// `unknown_star_in_join.rules`: unknown name in statement 10.
pub fn refused_unknown_star_in_join()
    ensures { HasFault rules.unknown_star_in_join (fault.Unknown 10) }
{}

/// `wrong_count.rules`: wrong number of arguments in statement 9.
pub fn refused_wrong_count()
    ensures { HasFault rules.wrong_count (fault.Arity 9) }
{}

/// `wrong_count_in_join.rules`: wrong number of arguments in statement 10.
pub fn refused_wrong_count_in_join()
    ensures { HasFault rules.wrong_count_in_join (fault.Arity 10) }
{}

/// `wrong_count_of_arguments.rules`: wrong number of arguments in statement 9.
pub fn refused_wrong_count_of_arguments()
    ensures { HasFault rules.wrong_count_of_arguments (fault.Arity 9) }
{}

/// `wrong_count_of_join.rules`: wrong number of arguments in statement 10.
pub fn refused_wrong_count_of_join()
    ensures { HasFault rules.wrong_count_of_join (fault.Arity 10) }
{}

/// `wrong_kind.rules`: wrong kind in statement 9.
pub fn refused_wrong_kind()
    ensures { HasFault rules.wrong_kind (fault.Kind 9) }
{}

/// `wrong_kind_in_condition.rules`: wrong kind in statement 10.
pub fn refused_wrong_kind_in_condition()
    ensures { HasFault rules.wrong_kind_in_condition (fault.Kind 10) }
{}

/// `wrong_kind_in_glue.rules`: wrong kind in statement 10.
pub fn refused_wrong_kind_in_glue()
    ensures { HasFault rules.wrong_kind_in_glue (fault.Kind 10) }
{}

/// `wrong_kind_in_input.rules`: wrong kind in statement 9.
pub fn refused_wrong_kind_in_input()
    ensures { HasFault rules.wrong_kind_in_input (fault.Kind 9) }
{}

/// `wrong_kind_in_range.rules`: wrong kind in statement 10.
pub fn refused_wrong_kind_in_range()
    ensures { HasFault rules.wrong_kind_in_range (fault.Kind 10) }
{}

/// `wrong_kind_of_argument.rules`: wrong kind in statement 9.
pub fn refused_wrong_kind_of_argument()
    ensures { HasFault rules.wrong_kind_of_argument (fault.Kind 9) }
{}

/// `wrong_kind_of_bracket.rules`: wrong kind in statement 10.
pub fn refused_wrong_kind_of_bracket()
    ensures { HasFault rules.wrong_kind_of_bracket (fault.Kind 10) }
{}

/// `wrong_kind_of_join.rules`: wrong kind in statement 10.
pub fn refused_wrong_kind_of_join()
    ensures { HasFault rules.wrong_kind_of_join (fault.Kind 10) }
{}

/// `wrong_kind_of_root.rules`: wrong kind in statement 9.
pub fn refused_wrong_kind_of_root()
    ensures { HasFault rules.wrong_kind_of_root (fault.Kind 9) }
{}

/// `wrong_kind_of_set.rules`: wrong kind in statement 10.
pub fn refused_wrong_kind_of_set()
    ensures { HasFault rules.wrong_kind_of_set (fault.Kind 10) }
{}
