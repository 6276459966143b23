// Written by tools/worked_plans.
// The selectivities that predicates have where no rule file gives one.
ghost use Rattle.worked_plans.specs.Claims.{HasUsualSelectivities};
ghost use Rattle.worked_plans.specs.Queries as query;

/// The selectivities of `all_employees.query`.
pub fn usual_in_all_employees()
    ensures { HasUsualSelectivities query.all_employees }
{}

/// The selectivities of `chain.query`.
pub fn usual_in_chain()
    ensures { HasUsualSelectivities query.chain }
{}

/// The selectivities of `cities.query`.
pub fn usual_in_cities()
    ensures { HasUsualSelectivities query.cities }
{}

/// The selectivities of `colleagues.query`.
pub fn usual_in_colleagues()
    ensures { HasUsualSelectivities query.colleagues }
{}

/// The selectivities of `compared.query`.
pub fn usual_in_compared()
    ensures { HasUsualSelectivities query.compared }
{}

/// The selectivities of `cross_product.query`.
pub fn usual_in_cross_product()
    ensures { HasUsualSelectivities query.cross_product }
{}

/// The selectivities of `eight.query`.
pub fn usual_in_eight()
    ensures { HasUsualSelectivities query.eight }
{}

/// The selectivities of `french_orders.query`.
pub fn usual_in_french_orders()
    ensures { HasUsualSelectivities query.french_orders }
{}

/// The selectivities of `generated.query`.
pub fn usual_in_generated()
    ensures { HasUsualSelectivities query.generated }
{}

/// The selectivities of `ids_by_department.query`.
pub fn usual_in_ids_by_department()
    ensures { HasUsualSelectivities query.ids_by_department }
{}

/// The selectivities of `ids_of_department.query`.
pub fn usual_in_ids_of_department()
    ensures { HasUsualSelectivities query.ids_of_department }
{}

/// The selectivities of `named.query`.
pub fn usual_in_named()
    ensures { HasUsualSelectivities query.named }
{}

/// The selectivities of `names_by_department.query`.
pub fn usual_in_names_by_department()
    ensures { HasUsualSelectivities query.names_by_department }
{}

/// The selectivities of `names_of_department.query`.
pub fn usual_in_names_of_department()
    ensures { HasUsualSelectivities query.names_of_department }
{}

/// The selectivities of `own_department.query`.
pub fn usual_in_own_department()
    ensures { HasUsualSelectivities query.own_department }
{}

/// The selectivities of `pairs.query`.
pub fn usual_in_pairs()
    ensures { HasUsualSelectivities query.pairs }
{}

/// The selectivities of `same_words.query`.
pub fn usual_in_same_words()
    ensures { HasUsualSelectivities query.same_words }
{}

/// The selectivities of `shipped.query`.
pub fn usual_in_shipped()
    ensures { HasUsualSelectivities query.shipped }
{}

/// The selectivities of `shipped_exchanged.query`.
pub fn usual_in_shipped_exchanged()
    ensures { HasUsualSelectivities query.shipped_exchanged }
{}

/// The selectivities of `t.query`.
pub fn usual_in_t()
    ensures { HasUsualSelectivities query.t }
{}

/// The selectivities of `t_filled.query`.
pub fn usual_in_t_filled()
    ensures { HasUsualSelectivities query.t_filled }
{}

/// The selectivities of `twelve.query`.
pub fn usual_in_twelve()
    ensures { HasUsualSelectivities query.twelve }
{}

/// The selectivities of `two_indexes.query`.
pub fn usual_in_two_indexes()
    ensures { HasUsualSelectivities query.two_indexes }
{}

/// The selectivities of `two_tables.query`.
pub fn usual_in_two_tables()
    ensures { HasUsualSelectivities query.two_tables }
{}

/// The selectivities of `unshipped.query`.
pub fn usual_in_unshipped()
    ensures { HasUsualSelectivities query.unshipped }
{}

/// The selectivities of `words_by_both.query`.
pub fn usual_in_words_by_both()
    ensures { HasUsualSelectivities query.words_by_both }
{}
