// Written by tools/worked_plans.
// What the definitions say of the table of operators.
ghost use Rattle.worked_plans.specs.Claims.{StepsAs, AreBetterAs, SatisfyAs, MeetAs, AreChainsAs, HasCards, AreCanonicalAs};
ghost use Rattle.worked_plans.specs.Queries as query;
ghost use Rattle.worked_plans.specs.RuleFiles as rules;
ghost use Rattle.worked_plans.specs.Operators as row;

/// The rows of `access_heap` for `cities.query`, with the costs of `standard.rules`.
pub fn access_heap_of_cities_under_standard()
    ensures { StepsAs query.cities rules.standard row.access_heap_of_cities_under_standard }
{}

/// The rows of `access_index` for `cities.query`, with the costs of `standard.rules`.
pub fn access_index_of_cities_under_standard()
    ensures { StepsAs query.cities rules.standard row.access_index_of_cities_under_standard }
{}

/// The rows of `sort` for `cities.query`, with the costs of `standard.rules`.
pub fn sort_of_cities_under_standard()
    ensures { StepsAs query.cities rules.standard row.sort_of_cities_under_standard }
{}

/// The rows of `store` for `cities.query`, with the costs of `standard.rules`.
pub fn store_of_cities_under_standard()
    ensures { StepsAs query.cities rules.standard row.store_of_cities_under_standard }
{}

/// The rows of `get` for `cities.query`, with the costs of `standard.rules`.
pub fn get_of_cities_under_standard()
    ensures { StepsAs query.cities rules.standard row.get_of_cities_under_standard }
{}

/// The rows of `filter` for `cities.query`, with the costs of `standard.rules`.
pub fn filter_of_cities_under_standard()
    ensures { StepsAs query.cities rules.standard row.filter_of_cities_under_standard }
{}

/// The rows of `ship` for `cities.query`, with the costs of `standard.rules`.
pub fn ship_of_cities_under_standard()
    ensures { StepsAs query.cities rules.standard row.ship_of_cities_under_standard }
{}

/// The rows of `join_nl` for `cities.query`, with the costs of `standard.rules`.
pub fn join_nl_of_cities_under_standard()
    ensures { StepsAs query.cities rules.standard row.join_nl_of_cities_under_standard }
{}

/// The rows of `join_hash` for `cities.query`, with the costs of `standard.rules`.
pub fn join_hash_of_cities_under_standard()
    ensures { StepsAs query.cities rules.standard row.join_hash_of_cities_under_standard }
{}

/// The rows of `probe` for `cities.query`, with the costs of `standard.rules`.
pub fn probe_of_cities_under_standard()
    ensures { StepsAs query.cities rules.standard row.probe_of_cities_under_standard }
{}

/// The rows of `join_merge` for `cities.query`, with the costs of `standard.rules`.
pub fn join_merge_of_cities_under_standard()
    ensures { StepsAs query.cities rules.standard row.join_merge_of_cities_under_standard }
{}

/// The rows of `better` for `cities.query`, with the costs of `standard.rules`.
pub fn better_of_cities_under_standard()
    ensures { AreBetterAs row.better_of_cities_under_standard }
{}

/// The rows of `satisfies` for `cities.query`, with the costs of `standard.rules`.
pub fn satisfies_of_cities_under_standard()
    ensures { SatisfyAs query.cities row.satisfies_of_cities_under_standard }
{}

/// The rows of `target` for `cities.query`, with the costs of `standard.rules`.
pub fn target_of_cities_under_standard()
    ensures { MeetAs query.cities row.target_of_cities_under_standard }
{}

/// The rows of `chain` for `cities.query`, with the costs of `standard.rules`.
pub fn chain_of_cities_under_standard()
    ensures { AreChainsAs row.chain_of_cities_under_standard }
{}

/// The rows of `card` for `cities.query`, with the costs of `standard.rules`.
pub fn card_of_cities_under_standard()
    ensures { HasCards query.cities row.card_of_cities_under_standard }
{}

/// The rows of `access_index` for `names_of_department.query`, with the costs of `standard.rules`.
pub fn access_index_of_names_of_department_under_standard()
    ensures { StepsAs query.names_of_department rules.standard
        row.access_index_of_names_of_department_under_standard }
{}

/// The rows of `filter` for `names_of_department.query`, with the costs of `standard.rules`.
pub fn filter_of_names_of_department_under_standard()
    ensures { StepsAs query.names_of_department rules.standard
        row.filter_of_names_of_department_under_standard }
{}

/// The rows of `get` for `names_of_department.query`, with the costs of `standard.rules`.
pub fn get_of_names_of_department_under_standard()
    ensures { StepsAs query.names_of_department rules.standard
        row.get_of_names_of_department_under_standard }
{}

/// The rows of `sort` for `names_of_department.query`, with the costs of `standard.rules`.
pub fn sort_of_names_of_department_under_standard()
    ensures { StepsAs query.names_of_department rules.standard
        row.sort_of_names_of_department_under_standard }
{}

/// The rows of `join_nl` for `names_of_department.query`, with the costs of `standard.rules`.
pub fn join_nl_of_names_of_department_under_standard()
    ensures { StepsAs query.names_of_department rules.standard
        row.join_nl_of_names_of_department_under_standard }
{}

/// The rows of `join_hash` for `names_of_department.query`, with the costs of `standard.rules`.
pub fn join_hash_of_names_of_department_under_standard()
    ensures { StepsAs query.names_of_department rules.standard
        row.join_hash_of_names_of_department_under_standard }
{}

/// The rows of `card` for `names_of_department.query`, with the costs of `standard.rules`.
pub fn card_of_names_of_department_under_standard()
    ensures { HasCards query.names_of_department row.card_of_names_of_department_under_standard }
{}

/// The rows of `access_heap` for `french_orders.query`, with the costs of `standard.rules`.
pub fn access_heap_of_french_orders_under_standard()
    ensures { StepsAs query.french_orders rules.standard
        row.access_heap_of_french_orders_under_standard }
{}

/// The rows of `ship` for `french_orders.query`, with the costs of `standard.rules`.
pub fn ship_of_french_orders_under_standard()
    ensures { StepsAs query.french_orders rules.standard row.ship_of_french_orders_under_standard }
{}

/// The rows of `access_index` for `french_orders.query`, with the costs of `standard.rules`.
pub fn access_index_of_french_orders_under_standard()
    ensures { StepsAs query.french_orders rules.standard
        row.access_index_of_french_orders_under_standard }
{}

/// The rows of `get` for `french_orders.query`, with the costs of `standard.rules`.
pub fn get_of_french_orders_under_standard()
    ensures { StepsAs query.french_orders rules.standard row.get_of_french_orders_under_standard }
{}

/// The rows of `filter` for `french_orders.query`, with the costs of `standard.rules`.
pub fn filter_of_french_orders_under_standard()
    ensures { StepsAs query.french_orders rules.standard
        row.filter_of_french_orders_under_standard }
{}

/// The rows of `sort` for `french_orders.query`, with the costs of `standard.rules`.
pub fn sort_of_french_orders_under_standard()
    ensures { StepsAs query.french_orders rules.standard row.sort_of_french_orders_under_standard }
{}

/// The rows of `store` for `french_orders.query`, with the costs of `standard.rules`.
pub fn store_of_french_orders_under_standard()
    ensures { StepsAs query.french_orders rules.standard row.store_of_french_orders_under_standard }
{}

/// The rows of `join_nl` for `french_orders.query`, with the costs of `standard.rules`.
pub fn join_nl_of_french_orders_under_standard()
    ensures { StepsAs query.french_orders rules.standard
        row.join_nl_of_french_orders_under_standard }
{}

/// The rows of `join_hash` for `french_orders.query`, with the costs of `standard.rules`.
pub fn join_hash_of_french_orders_under_standard()
    ensures { StepsAs query.french_orders rules.standard
        row.join_hash_of_french_orders_under_standard }
{}

/// The rows of `join_merge` for `french_orders.query`, with the costs of `standard.rules`.
pub fn join_merge_of_french_orders_under_standard()
    ensures { StepsAs query.french_orders rules.standard
        row.join_merge_of_french_orders_under_standard }
{}

/// The rows of `satisfies` for `french_orders.query`, with the costs of `standard.rules`.
pub fn satisfies_of_french_orders_under_standard()
    ensures { SatisfyAs query.french_orders row.satisfies_of_french_orders_under_standard }
{}

/// The rows of `better` for `french_orders.query`, with the costs of `standard.rules`.
pub fn better_of_french_orders_under_standard()
    ensures { AreBetterAs row.better_of_french_orders_under_standard }
{}

/// The rows of `card` for `french_orders.query`, with the costs of `standard.rules`.
pub fn card_of_french_orders_under_standard()
    ensures { HasCards query.french_orders row.card_of_french_orders_under_standard }
{}

/// The rows of `canon` for `french_orders.query`, with the costs of `standard.rules`.
pub fn canon_of_french_orders_under_standard()
    ensures { AreCanonicalAs query.french_orders row.canon_of_french_orders_under_standard }
{}

/// The rows of `access_heap` for `shipped.query`, with the costs of `heaps.rules`.
pub fn access_heap_of_shipped_under_heaps()
    ensures { StepsAs query.shipped rules.heaps row.access_heap_of_shipped_under_heaps }
{}

/// The rows of `ship` for `shipped.query`, with the costs of `heaps.rules`.
pub fn ship_of_shipped_under_heaps()
    ensures { StepsAs query.shipped rules.heaps row.ship_of_shipped_under_heaps }
{}

/// The rows of `sort` for `shipped.query`, with the costs of `heaps.rules`.
pub fn sort_of_shipped_under_heaps()
    ensures { StepsAs query.shipped rules.heaps row.sort_of_shipped_under_heaps }
{}

/// The rows of `store` for `shipped.query`, with the costs of `heaps.rules`.
pub fn store_of_shipped_under_heaps()
    ensures { StepsAs query.shipped rules.heaps row.store_of_shipped_under_heaps }
{}

/// The rows of `filter` for `shipped.query`, with the costs of `heaps.rules`.
pub fn filter_of_shipped_under_heaps()
    ensures { StepsAs query.shipped rules.heaps row.filter_of_shipped_under_heaps }
{}

/// The rows of `access_heap` for `generated.query`, with the costs of `variables.rules`.
pub fn access_heap_of_generated_under_variables()
    ensures { StepsAs query.generated rules.variables row.access_heap_of_generated_under_variables }
{}

/// The rows of `access_index` for `generated.query`, with the costs of `variables.rules`.
pub fn access_index_of_generated_under_variables()
    ensures { StepsAs query.generated rules.variables
        row.access_index_of_generated_under_variables }
{}

/// The rows of `store` for `generated.query`, with the costs of `variables.rules`.
pub fn store_of_generated_under_variables()
    ensures { StepsAs query.generated rules.variables row.store_of_generated_under_variables }
{}

/// The rows of `sort` for `generated.query`, with the costs of `variables.rules`.
pub fn sort_of_generated_under_variables()
    ensures { StepsAs query.generated rules.variables row.sort_of_generated_under_variables }
{}

/// The rows of `get` for `generated.query`, with the costs of `variables.rules`.
pub fn get_of_generated_under_variables()
    ensures { StepsAs query.generated rules.variables row.get_of_generated_under_variables }
{}

/// The rows of `filter` for `generated.query`, with the costs of `variables.rules`.
pub fn filter_of_generated_under_variables()
    ensures { StepsAs query.generated rules.variables row.filter_of_generated_under_variables }
{}

/// The rows of `probe` for `generated.query`, with the costs of `variables.rules`.
pub fn probe_of_generated_under_variables()
    ensures { StepsAs query.generated rules.variables row.probe_of_generated_under_variables }
{}

/// The rows of `join_nl` for `generated.query`, with the costs of `variables.rules`.
pub fn join_nl_of_generated_under_variables()
    ensures { StepsAs query.generated rules.variables row.join_nl_of_generated_under_variables }
{}

/// The rows of `join_merge` for `generated.query`, with the costs of `variables.rules`.
pub fn join_merge_of_generated_under_variables()
    ensures { StepsAs query.generated rules.variables row.join_merge_of_generated_under_variables }
{}

/// The rows of `join_hash` for `generated.query`, with the costs of `variables.rules`.
pub fn join_hash_of_generated_under_variables()
    ensures { StepsAs query.generated rules.variables row.join_hash_of_generated_under_variables }
{}

/// The rows of `access_heap` for `french_orders.query`, with the costs of `variables.rules`.
pub fn access_heap_of_french_orders_under_variables()
    ensures { StepsAs query.french_orders rules.variables
        row.access_heap_of_french_orders_under_variables }
{}

/// The rows of `ship` for `french_orders.query`, with the costs of `variables.rules`.
pub fn ship_of_french_orders_under_variables()
    ensures { StepsAs query.french_orders rules.variables
        row.ship_of_french_orders_under_variables }
{}

/// The rows of `sort` for `french_orders.query`, with the costs of `variables.rules`.
pub fn sort_of_french_orders_under_variables()
    ensures { StepsAs query.french_orders rules.variables
        row.sort_of_french_orders_under_variables }
{}

/// The rows of `access_index` for `french_orders.query`, with the costs of `variables.rules`.
pub fn access_index_of_french_orders_under_variables()
    ensures { StepsAs query.french_orders rules.variables
        row.access_index_of_french_orders_under_variables }
{}

/// The rows of `join_hash` for `french_orders.query`, with the costs of `variables.rules`.
pub fn join_hash_of_french_orders_under_variables()
    ensures { StepsAs query.french_orders rules.variables
        row.join_hash_of_french_orders_under_variables }
{}

/// The rows of `join_merge` for `french_orders.query`, with the costs of `variables.rules`.
pub fn join_merge_of_french_orders_under_variables()
    ensures { StepsAs query.french_orders rules.variables
        row.join_merge_of_french_orders_under_variables }
{}

/// The rows of `join_nl` for `french_orders.query`, with the costs of `variables.rules`.
pub fn join_nl_of_french_orders_under_variables()
    ensures { StepsAs query.french_orders rules.variables
        row.join_nl_of_french_orders_under_variables }
{}

/// The rows of `access_heap` for `shipped.query`, with the costs of `variables.rules`.
pub fn access_heap_of_shipped_under_variables()
    ensures { StepsAs query.shipped rules.variables row.access_heap_of_shipped_under_variables }
{}

/// The rows of `ship` for `shipped.query`, with the costs of `variables.rules`.
pub fn ship_of_shipped_under_variables()
    ensures { StepsAs query.shipped rules.variables row.ship_of_shipped_under_variables }
{}

/// The rows of `sort` for `shipped.query`, with the costs of `variables.rules`.
pub fn sort_of_shipped_under_variables()
    ensures { StepsAs query.shipped rules.variables row.sort_of_shipped_under_variables }
{}

/// The rows of `store` for `shipped.query`, with the costs of `variables.rules`.
pub fn store_of_shipped_under_variables()
    ensures { StepsAs query.shipped rules.variables row.store_of_shipped_under_variables }
{}

/// The rows of `filter` for `shipped.query`, with the costs of `variables.rules`.
pub fn filter_of_shipped_under_variables()
    ensures { StepsAs query.shipped rules.variables row.filter_of_shipped_under_variables }
{}

/// The rows of `access_heap` for `two_tables.query`, with the costs of `variables.rules`.
pub fn access_heap_of_two_tables_under_variables()
    ensures { StepsAs query.two_tables rules.variables
        row.access_heap_of_two_tables_under_variables }
{}

/// The rows of `ship` for `two_tables.query`, with the costs of `variables.rules`.
pub fn ship_of_two_tables_under_variables()
    ensures { StepsAs query.two_tables rules.variables row.ship_of_two_tables_under_variables }
{}

/// The rows of `join_nl` for `two_tables.query`, with the costs of `variables.rules`.
pub fn join_nl_of_two_tables_under_variables()
    ensures { StepsAs query.two_tables rules.variables row.join_nl_of_two_tables_under_variables }
{}

/// The rows of `access_heap` for `compared.query`, with the costs of `standard.rules`.
pub fn access_heap_of_compared_under_standard()
    ensures { StepsAs query.compared rules.standard row.access_heap_of_compared_under_standard }
{}

/// The rows of `card` for `compared.query`, with the costs of `standard.rules`.
pub fn card_of_compared_under_standard()
    ensures { HasCards query.compared row.card_of_compared_under_standard }
{}

/// The rows of `join_hash` for `compared.query`, with the costs of `standard.rules`.
pub fn join_hash_of_compared_under_standard()
    ensures { StepsAs query.compared rules.standard row.join_hash_of_compared_under_standard }
{}

/// The rows of `canon` for `compared.query`, with the costs of `standard.rules`.
pub fn canon_of_compared_under_standard()
    ensures { AreCanonicalAs query.compared row.canon_of_compared_under_standard }
{}

/// The rows of `join_merge` for `words_by_both.query`, with the costs of `merge.rules`.
pub fn join_merge_of_words_by_both_under_merge()
    ensures { StepsAs query.words_by_both rules.merge row.join_merge_of_words_by_both_under_merge }
{}

/// The rows of `sort` for `words_by_both.query`, with the costs of `merge.rules`.
pub fn sort_of_words_by_both_under_merge()
    ensures { StepsAs query.words_by_both rules.merge row.sort_of_words_by_both_under_merge }
{}

/// The rows of `canon` for `words_by_both.query`, with the costs of `merge.rules`.
pub fn canon_of_words_by_both_under_merge()
    ensures { AreCanonicalAs query.words_by_both row.canon_of_words_by_both_under_merge }
{}

/// The rows of `satisfies` for `words_by_both.query`, with the costs of `merge.rules`.
pub fn satisfies_of_words_by_both_under_merge()
    ensures { SatisfyAs query.words_by_both row.satisfies_of_words_by_both_under_merge }
{}

/// The rows of `canon` for `chain.query`, with the costs of `standard.rules`.
pub fn canon_of_chain_under_standard()
    ensures { AreCanonicalAs query.chain row.canon_of_chain_under_standard }
{}

/// The rows of `access_index` for `own_department.query`, with the costs of `standard.rules`.
pub fn access_index_of_own_department_under_standard()
    ensures { StepsAs query.own_department rules.standard
        row.access_index_of_own_department_under_standard }
{}

/// The rows of `filter` for `own_department.query`, with the costs of `standard.rules`.
pub fn filter_of_own_department_under_standard()
    ensures { StepsAs query.own_department rules.standard
        row.filter_of_own_department_under_standard }
{}

/// The rows of `sort` for `own_department.query`, with the costs of `standard.rules`.
pub fn sort_of_own_department_under_standard()
    ensures { StepsAs query.own_department rules.standard
        row.sort_of_own_department_under_standard }
{}

/// The rows of `store` for `own_department.query`, with the costs of `standard.rules`.
pub fn store_of_own_department_under_standard()
    ensures { StepsAs query.own_department rules.standard
        row.store_of_own_department_under_standard }
{}

/// The rows of `probe` for `own_department.query`, with the costs of `standard.rules`.
pub fn probe_of_own_department_under_standard()
    ensures { StepsAs query.own_department rules.standard
        row.probe_of_own_department_under_standard }
{}

/// The rows of `canon` for `own_department.query`, with the costs of `standard.rules`.
pub fn canon_of_own_department_under_standard()
    ensures { AreCanonicalAs query.own_department row.canon_of_own_department_under_standard }
{}

/// The rows of `join_merge` for `colleagues.query`, with the costs of `standard.rules`.
pub fn join_merge_of_colleagues_under_standard()
    ensures { StepsAs query.colleagues rules.standard row.join_merge_of_colleagues_under_standard }
{}

/// The rows of `satisfies` for `colleagues.query`, with the costs of `standard.rules`.
pub fn satisfies_of_colleagues_under_standard()
    ensures { SatisfyAs query.colleagues row.satisfies_of_colleagues_under_standard }
{}

/// The rows of `canon` for `colleagues.query`, with the costs of `standard.rules`.
pub fn canon_of_colleagues_under_standard()
    ensures { AreCanonicalAs query.colleagues row.canon_of_colleagues_under_standard }
{}

/// The rows of `access_index` for `two_indexes.query`, with the costs of `intersect.rules`.
pub fn access_index_of_two_indexes_under_intersect()
    ensures { StepsAs query.two_indexes rules.intersect
        row.access_index_of_two_indexes_under_intersect }
{}

/// The rows of `intersect` for `two_indexes.query`, with the costs of `intersect.rules`.
pub fn intersect_of_two_indexes_under_intersect()
    ensures { StepsAs query.two_indexes rules.intersect
        row.intersect_of_two_indexes_under_intersect }
{}

/// The rows of `get` for `two_indexes.query`, with the costs of `intersect.rules`.
pub fn get_of_two_indexes_under_intersect()
    ensures { StepsAs query.two_indexes rules.intersect row.get_of_two_indexes_under_intersect }
{}

/// The rows of `access_heap` for `cities.query`, with the costs of `intersect.rules`.
pub fn access_heap_of_cities_under_intersect()
    ensures { StepsAs query.cities rules.intersect row.access_heap_of_cities_under_intersect }
{}

/// The rows of `intersect` for `cities.query`, with the costs of `intersect.rules`.
pub fn intersect_of_cities_under_intersect()
    ensures { StepsAs query.cities rules.intersect row.intersect_of_cities_under_intersect }
{}
