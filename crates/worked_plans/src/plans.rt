// Written by tools/worked_plans.
// What the definitions say of each derivation in examples/plans.
ghost use Rattle.worked_plans.specs.Claims.{HasNumbers, HasNumbersFor, IsInvalidAt, by};
ghost use Rattle.worked_plans.specs.Derivations as tree;
ghost use Rattle.worked_plans.specs.Queries as query;
ghost use Rattle.worked_plans.specs.RuleFiles as rules;

/// The STAR has one alternative. Under `heaps.rules`, for `ids_of_department.query`.
pub fn alternative_beyond()
    ensures { IsInvalidAt 3 query.ids_of_department rules.heaps tree.alternative_beyond }
{}

/// The rows that two indexes share are found, and read. Under `intersect.rules`, for
/// `two_indexes.query`.
pub fn both_indexes()
    ensures { HasNumbers (by query.two_indexes rules.intersect) rules.intersect tree.both_indexes
        385 385 5 }
{}

/// Both tables are stored. Under `stored_heaps.rules`, for `cities.query`.
pub fn both_stored()
    ensures { HasNumbers query.cities rules.stored_heaps tree.both_stored 13040 10010 1000 }
{}

/// The selected column isn't in the index, and is got from the table. Under `standard.rules`, for
/// `names_of_department.query`.
pub fn column_by_get()
    ensures { HasNumbers query.names_of_department rules.standard tree.column_by_get 1130 1130 100 }
{}

/// The index alone lacks the selected column, so its goal isn't met. Under `standard.rules`, for
/// `names_of_department.query`.
pub fn column_is_missing()
    ensures { IsInvalidAt 2 query.names_of_department rules.standard tree.column_is_missing }
{}

/// The inner input is stored: dear once, cheap again. Under `stored_heaps.rules`, for
/// `cities.query`.
pub fn dear_once()
    ensures { HasNumbers query.cities rules.stored_heaps tree.dear_once 12030 12000 1000 }
{}

/// Eight tables, at the greatest number. Under `heaps.rules`, for `eight.query`.
pub fn eight_tables()
    ensures { HasNumbers query.eight rules.heaps tree.eight_tables 1000000000000000000
        1000000000000000000 1000000000000000000 }
{}

/// The greater table is the outer one, and the predicate is pushed. Under `pushdown.rules`, for
/// `cities.query`.
pub fn employees_outside()
    ensures { HasNumbers query.cities rules.pushdown tree.employees_outside 21210 21210 1000 }
{}

/// The greater table is the outer one, and the join applies the predicate. Under `pushdown.rules`,
/// for `cities.query`.
pub fn employees_outside_not_pushed()
    ensures { HasNumbers query.cities rules.pushdown tree.employees_outside_not_pushed 21210 21210
        1000 }
{}

/// The greater table is stored, and is the inner one. Under `stored_heaps.rules`, for
/// `cities.query`.
pub fn employees_stored()
    ensures { HasNumbers query.cities rules.stored_heaps tree.employees_stored 13020 10020 1000 }
{}

/// The reference's condition is false, since no equality links the tables. Under `hash.rules`, for
/// `cross_product.query`.
pub fn false_condition()
    ensures { IsInvalidAt 3 query.cross_product rules.hash tree.false_condition }
{}

/// An operator that the rule doesn't have. Under `tiny.rules`, for `t.query`.
pub fn filter_for_heap()
    ensures { IsInvalidAt 4 query.t rules.tiny tree.filter_for_heap }
{}

/// The first of two equal alternatives. Under `tie.rules`, for `t_filled.query`.
pub fn first_of_two()
    ensures { HasNumbers query.t_filled rules.tie tree.first_of_two 1500 1500 1000 }
{}

/// Five tables at two sites. Under `standard.rules`, for `french_orders.query`.
pub fn five_tables()
    ensures { HasNumbers query.french_orders rules.standard tree.five_tables 139959956036
        139000656000 80000 }
{}

/// A hash join over two index accesses, sorted. Under `generator.rules`, for `generated.query`.
pub fn generated_hash()
    ensures { HasNumbers query.generated rules.generator tree.generated_hash 169 169 15 }
{}

/// The node's goal has a predicate that isn't pushed. Under `heaps.rules`, for `cities.query`.
pub fn goal_with_more_pushed()
    ensures { IsInvalidAt 10 query.cities rules.heaps tree.goal_with_more_pushed }
{}

/// The node's goal lacks the predicate that is pushed. Under `pushdown.rules`, for `cities.query`.
pub fn goal_without_pushed()
    ensures { IsInvalidAt 10 query.cities rules.pushdown tree.goal_without_pushed }
{}

/// Both inputs are sorted and merged, and the result sorted. Under `merge.rules`, for
/// `same_words.query`.
pub fn groups()
    ensures { HasNumbers query.same_words rules.merge tree.groups 74 74 6 }
{}

/// The table is read whole. Under `standard.rules`, for `ids_of_department.query`.
pub fn heap_for_department()
    ensures { HasNumbers query.ids_of_department rules.standard tree.heap_for_department 2000 2000
        100 }
{}

/// The table is read whole and sorted. Under `standard.rules`, for `names_by_department.query`.
pub fn heap_is_sorted()
    ensures { HasNumbers query.names_by_department rules.standard tree.heap_is_sorted 6000 6000
        1000 }
{}

/// There is no for-all clause for the value. Under `standard.rules`, for `ids_of_department.query`.
pub fn heap_with_number()
    ensures { IsInvalidAt 3 query.ids_of_department rules.standard tree.heap_with_number }
{}

/// The index has all that is selected. Under `standard.rules`, for `ids_of_department.query`.
pub fn index_alone()
    ensures { HasNumbers query.ids_of_department rules.standard tree.index_alone 130 130 100 }
{}

/// The rows of one department are found by the index, and read. Under `standard.rules`, for
/// `ids_of_department.query`.
pub fn index_and_get()
    ensures { HasNumbers query.ids_of_department rules.standard tree.index_and_get 1130 1130 100 }
{}

/// The index gives the order that is asked. Under `standard.rules`, for `ids_by_department.query`.
pub fn index_has_the_order()
    ensures { HasNumbers query.ids_by_department rules.standard tree.index_has_the_order 1210 1210
        1000 }
{}

/// The index is on another table. Under `generator.rules`, for `generated.query`.
pub fn index_of_another_table()
    ensures { IsInvalidAt 8 query.generated rules.generator tree.index_of_another_table }
{}

/// The index gives the order, but each row is got from the table. Under `standard.rules`, for
/// `names_by_department.query`.
pub fn index_order_is_dearer()
    ensures { HasNumbers query.names_by_department rules.standard tree.index_order_is_dearer 11210
        11210 1000 }
{}

/// There is no second index. Under `standard.rules`, for `ids_of_department.query`.
pub fn index_out_of_range()
    ensures { IsInvalidAt 3 query.ids_of_department rules.standard tree.index_out_of_range }
{}

/// The for-all clause has no value. Under `standard.rules`, for `ids_of_department.query`.
pub fn index_without_number()
    ensures { IsInvalidAt 3 query.ids_of_department rules.standard tree.index_without_number }
{}

/// A join at the other site, to which both inputs are shipped. Under `standard.rules`, for
/// `two_tables.query`.
pub fn joined_elsewhere()
    ensures { HasNumbers query.two_tables rules.standard tree.joined_elsewhere 97090985 66904985
        150000 }
{}

/// A merge join over a sorted heap and an index. Under `standard.rules`, for `cities.query`.
pub fn merged_by_index()
    ensures { HasNumbers query.cities rules.standard tree.merged_by_index 2280 2280 1000 }
{}

/// The merged rows are in the order of both columns, which are equal. Under `merge.rules`, for
/// `words_by_both.query`.
pub fn merged_in_order()
    ensures { HasNumbers query.words_by_both rules.merge tree.merged_in_order 50 50 6 }
{}

/// They may be sorted once more. Under `merge.rules`, for `words_by_both.query`.
pub fn merged_then_sorted()
    ensures { HasNumbers query.words_by_both rules.merge tree.merged_then_sorted 74 74 6 }
{}

/// A goal of two tables without a split. Under `heaps.rules`, for `cities.query`.
pub fn no_split()
    ensures { IsInvalidAt 2 query.cities rules.heaps tree.no_split }
{}

/// The predicate is applied by the join. Under `pushdown.rules`, for `cities.query`.
pub fn not_pushed()
    ensures { HasNumbers query.cities rules.pushdown tree.not_pushed 12120 12120 1000 }
{}

/// A chain that leaves the rows at another site. Under `heaps.rules`, for `shipped.query`.
pub fn not_shipped()
    ensures { IsInvalidAt 1 query.shipped rules.heaps tree.not_shipped }
{}

/// An index isn't intersected with itself: the condition is false. Under `intersect.rules`, for
/// `two_indexes.query`.
pub fn one_index_twice()
    ensures { IsInvalidAt 4 (by query.two_indexes rules.intersect) rules.intersect
        tree.one_index_twice }
{}

/// Another access than the rule's. Under `standard.rules`, for `ids_of_department.query`.
pub fn other_access()
    ensures { IsInvalidAt 4 query.ids_of_department rules.standard tree.other_access }
{}

/// Another join than the rule's. Under `heaps.rules`, for `cities.query`.
pub fn other_join()
    ensures { IsInvalidAt 4 query.cities rules.heaps tree.other_join }
{}

/// Another operator of one input than the rule's. Under `stored_heaps.rules`, for
/// `all_employees.query`.
pub fn other_operator()
    ensures { IsInvalidAt 4 query.all_employees rules.stored_heaps tree.other_operator }
{}

/// Another STAR than the goal's. Under `heaps.rules`, for `ids_of_department.query`.
pub fn other_star()
    ensures { IsInvalidAt 3 query.ids_of_department rules.heaps tree.other_star }
{}

/// A table joined with itself, and sorted. Under `heaps.rules`, for `pairs.query`.
pub fn pairs()
    ensures { HasNumbers query.pairs rules.heaps tree.pairs 72 72 5 }
{}

/// The inputs stand in the other order than the split. Under `heaps.rules`, for `cities.query`.
pub fn parts_exchanged()
    ensures { IsInvalidAt 6 query.cities rules.heaps tree.parts_exchanged }
{}

/// Nothing is stored. Under `stored_heaps.rules`, for `cities.query`.
pub fn plain_heaps()
    ensures { HasNumbers query.cities rules.stored_heaps tree.plain_heaps 20020 20020 1000 }
{}

/// The access applies none of the query's predicates. Under `tiny.rules`, for
/// `ids_of_department.query`.
pub fn predicate_missing()
    ensures { IsInvalidAt 2 query.ids_of_department rules.tiny tree.predicate_missing }
{}

/// A temporary with a path is probed. Under `standard.rules`, for `cities.query`.
pub fn probed()
    ensures { HasNumbers query.cities rules.standard tree.probed 4240 1030 1000 }
{}

/// The join's predicate is pushed into the inner access. Under `pushdown.rules`, for
/// `cities.query`.
pub fn pushed_predicate()
    ensures { HasNumbers query.cities rules.pushdown tree.pushed_predicate 1320 1320 1000 }
{}

/// A pushed predicate is handed on only where it crosses. Under `pushdown.rules`, for
/// `colleagues.query`.
pub fn pushed_twice()
    ensures { HasNumbers query.colleagues rules.pushdown tree.pushed_twice 1321210 1321210 100000 }
{}

/// The table is read, which costs least. Under `storing.rules`, for `t_filled.query`.
pub fn read_alone()
    ensures { HasNumbers query.t_filled rules.storing tree.read_alone 1500 1500 1000 }
{}

/// The table is read and stored: dearer at first, and cheaper again. Under `storing.rules`, for
/// `t_filled.query`.
pub fn read_and_stored()
    ensures { HasNumbers query.t_filled rules.storing tree.read_and_stored 3500 1000 1000 }
{}

/// The second of two equal alternatives. Under `tie.rules`, for `t_filled.query`.
pub fn second_of_two()
    ensures { HasNumbers query.t_filled rules.tie tree.second_of_two 1500 1500 1000 }
{}

/// Rows are shipped to the site where sorting costs less. Under `heaps.rules`, for `shipped.query`.
pub fn shipped_then_sorted()
    ensures { HasNumbers query.shipped rules.heaps tree.shipped_then_sorted 2510 2510 100 }
{}

/// Rows are shipped, and sorted where sorting costs more. Under `heaps.rules`, for
/// `shipped_exchanged.query`.
pub fn shipped_then_sorted_exchanged()
    ensures { HasNumbers query.shipped_exchanged rules.heaps tree.shipped_then_sorted_exchanged 3710
        3710 100 }
{}

/// The one derivation of an empty table. Under `tiny.rules`, for `t.query`.
pub fn smallest()
    ensures { HasNumbers query.t rules.tiny tree.smallest 0 0 0 }
{}

/// Rows are sorted where sorting costs more. Under `heaps.rules`, for `shipped.query`.
pub fn sorted_then_shipped()
    ensures { HasNumbers query.shipped rules.heaps tree.sorted_then_shipped 4110 4110 100 }
{}

/// Rows are sorted where sorting costs less, and shipped then. Under `heaps.rules`, for
/// `shipped_exchanged.query`.
pub fn sorted_then_shipped_exchanged()
    ensures { HasNumbers query.shipped_exchanged rules.heaps tree.sorted_then_shipped_exchanged 2110
        2110 100 }
{}

/// A chain with a repeat. Under `standard.rules`, for `names_by_department.query`.
pub fn sorted_twice()
    ensures { IsInvalidAt 1 query.names_by_department rules.standard tree.sorted_twice }
{}

/// The parts of the split lack a table. Under `heaps.rules`, for `colleagues.query`.
pub fn split_of_less()
    ensures { IsInvalidAt 2 query.colleagues rules.heaps tree.split_of_less }
{}

/// A goal of one table with a split. Under `heaps.rules`, for `ids_of_department.query`.
pub fn split_of_one()
    ensures { IsInvalidAt 2 query.ids_of_department rules.heaps tree.split_of_one }
{}

/// One part of the split is empty. Under `heaps.rules`, for `cities.query`.
pub fn split_with_empty_part()
    ensures { IsInvalidAt 2 query.cities rules.heaps tree.split_with_empty_part }
{}

/// The parts of the split have a table in common. Under `heaps.rules`, for `cities.query`.
pub fn split_with_overlap()
    ensures { IsInvalidAt 2 query.cities rules.heaps tree.split_with_overlap }
{}

/// The table is stored twice, which the table stored once is better than. Under `storing.rules`,
/// for `t_filled.query`.
pub fn stored_again()
    ensures { HasNumbers query.t_filled rules.storing tree.stored_again 5500 1000 1000 }
{}

/// The table is stored once it is read. Under `stored_tiny.rules`, for `t_filled.query`.
pub fn stored_table()
    ensures { HasNumbers query.t_filled rules.stored_tiny tree.stored_table 3500 1000 1000 }
{}

/// The chain has an operator that nothing asks for. Under `standard.rules`, for
/// `all_employees.query`.
pub fn stored_without_need()
    ensures { IsInvalidAt 1 query.all_employees rules.standard tree.stored_without_need }
{}

/// The same over 1000 rows on 50 pages. Under `tiny.rules`, for `t_filled.query`.
pub fn thousand_rows()
    ensures { HasNumbers query.t_filled rules.tiny tree.thousand_rows 1500 1500 1000 }
{}

/// The rule file says that a constant is twice as frequent. Under `skewed.rules`, for
/// `ids_of_department.query`.
pub fn twice_as_frequent()
    ensures { HasNumbers (by query.ids_of_department rules.skewed) rules.skewed
        tree.twice_as_frequent 2000 2000 200 }
{}

/// The order that is asked isn't there. Under `standard.rules`, for `ids_by_department.query`.
pub fn unsorted()
    ensures { IsInvalidAt 1 query.ids_by_department rules.standard tree.unsorted }
{}

/// An input isn't sorted as the merge join requires. Under `merge.rules`, for `same_words.query`.
pub fn unsorted_input()
    ensures { IsInvalidAt 10 query.same_words rules.merge tree.unsorted_input }
{}

/// The table is read, and not stored. Under `stored_tiny.rules`, for `t_filled.query`.
pub fn unstored_table()
    ensures { HasNumbers query.t_filled rules.stored_tiny tree.unstored_table 1500 1500 1000 }
{}

/// The goal below the sort. Under `heaps.rules`, for `pairs.query`.
pub fn goal_of_pairs()
    ensures { HasNumbersFor 3 0 query.pairs rules.heaps tree.goal_of_pairs 52 52 5 }
{}

/// The goal into which the predicate is pushed. Under `pushdown.rules`, for `cities.query`.
pub fn goal_of_pushed()
    ensures { HasNumbersFor 2 1 query.cities rules.pushdown tree.goal_of_pushed 130 130 100 }
{}
