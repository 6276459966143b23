// Written by tools/worked_plans.
// What the definitions say of the table of values.
ghost use Rattle.worked_plans.specs.Claims.{MeanAs, HoldAs, RangeAs};
ghost use Rattle.worked_plans.specs.Queries as query;
ghost use Rattle.worked_plans.specs.Values as row;

/// The rows of `tables` for `cities.query`.
pub fn tables_of_cities()
    ensures { MeanAs query.cities row.bound_in_cities row.tables_of_cities }
{}

/// The rows of `all` for `cities.query`.
pub fn all_of_cities()
    ensures { MeanAs query.cities row.bound_in_cities row.all_of_cities }
{}

/// The rows of `inside` for `cities.query`.
pub fn inside_of_cities()
    ensures { MeanAs query.cities row.bound_in_cities row.inside_of_cities }
{}

/// The rows of `crossing` for `cities.query`.
pub fn crossing_of_cities()
    ensures { MeanAs query.cities row.bound_in_cities row.crossing_of_cities }
{}

/// The rows of `between` for `cities.query`.
pub fn between_of_cities()
    ensures { MeanAs query.cities row.bound_in_cities row.between_of_cities }
{}

/// The rows of `keys` for `cities.query`.
pub fn keys_of_cities()
    ensures { MeanAs query.cities row.bound_in_cities row.keys_of_cities }
{}

/// The rows of `orderby` for `cities.query`.
pub fn orderby_of_cities()
    ensures { MeanAs query.cities row.bound_in_cities row.orderby_of_cities }
{}

/// The rows of `querysite` for `cities.query`.
pub fn querysite_of_cities()
    ensures { MeanAs query.cities row.bound_in_cities row.querysite_of_cities }
{}

/// The rows of `single` for `cities.query`.
pub fn single_of_cities()
    ensures { HoldAs query.cities row.bound_in_cities row.single_of_cities }
{}

/// The rows of `begins` for `cities.query`.
pub fn begins_of_cities()
    ensures { HoldAs query.cities row.bound_in_cities row.begins_of_cities }
{}

/// The rows of `same` for `cities.query`.
pub fn same_of_cities()
    ensures { HoldAs query.cities row.bound_in_cities row.same_of_cities }
{}

/// The rows of `querysite` for `unshipped.query`.
pub fn querysite_of_unshipped()
    ensures { MeanAs query.unshipped row.bound_in_unshipped row.querysite_of_unshipped }
{}

/// The rows of `home` for `unshipped.query`.
pub fn home_of_unshipped()
    ensures { MeanAs query.unshipped row.bound_in_unshipped row.home_of_unshipped }
{}

/// The rows of `sites` for `unshipped.query`.
pub fn sites_of_unshipped()
    ensures { RangeAs query.unshipped row.bound_in_unshipped row.sites_of_unshipped }
{}

/// The rows of `indexes` for `unshipped.query`.
pub fn indexes_of_unshipped()
    ensures { RangeAs query.unshipped row.bound_in_unshipped row.indexes_of_unshipped }
{}

/// The rows of `querysite` for `shipped.query`.
pub fn querysite_of_shipped()
    ensures { MeanAs query.shipped row.bound_in_shipped row.querysite_of_shipped }
{}

/// The rows of `home` for `shipped.query`.
pub fn home_of_shipped()
    ensures { MeanAs query.shipped row.bound_in_shipped row.home_of_shipped }
{}

/// The rows of `inside` for `own_department.query`.
pub fn inside_of_own_department()
    ensures { MeanAs query.own_department row.bound_in_own_department row.inside_of_own_department }
{}

/// The rows of `equalities` for `own_department.query`.
pub fn equalities_of_own_department()
    ensures { MeanAs query.own_department row.bound_in_own_department
        row.equalities_of_own_department }
{}

/// The rows of `crossing` for `own_department.query`.
pub fn crossing_of_own_department()
    ensures { MeanAs query.own_department row.bound_in_own_department
        row.crossing_of_own_department }
{}

/// The rows of `keys` for `own_department.query`.
pub fn keys_of_own_department()
    ensures { MeanAs query.own_department row.bound_in_own_department row.keys_of_own_department }
{}

/// The rows of `columns` for `ids_by_department.query`.
pub fn columns_of_ids_by_department()
    ensures { MeanAs query.ids_by_department row.bound_in_ids_by_department
        row.columns_of_ids_by_department }
{}

/// The rows of `orderby` for `ids_by_department.query`.
pub fn orderby_of_ids_by_department()
    ensures { MeanAs query.ids_by_department row.bound_in_ids_by_department
        row.orderby_of_ids_by_department }
{}

/// The rows of `begins` for `ids_by_department.query`.
pub fn begins_of_ids_by_department()
    ensures { HoldAs query.ids_by_department row.bound_in_ids_by_department
        row.begins_of_ids_by_department }
{}

/// The rows of `same` for `ids_by_department.query`.
pub fn same_of_ids_by_department()
    ensures { HoldAs query.ids_by_department row.bound_in_ids_by_department
        row.same_of_ids_by_department }
{}

/// The rows of `empty` for `ids_by_department.query`.
pub fn empty_of_ids_by_department()
    ensures { HoldAs query.ids_by_department row.bound_in_ids_by_department
        row.empty_of_ids_by_department }
{}

/// The rows of `indexes` for `ids_by_department.query`.
pub fn indexes_of_ids_by_department()
    ensures { RangeAs query.ids_by_department row.bound_in_ids_by_department
        row.indexes_of_ids_by_department }
{}

/// The rows of `name` for `french_orders.query`.
pub fn name_of_french_orders()
    ensures { MeanAs query.french_orders row.bound_in_french_orders row.name_of_french_orders }
{}

/// The rows of `order` for `french_orders.query`.
pub fn order_of_french_orders()
    ensures { MeanAs query.french_orders row.bound_in_french_orders row.order_of_french_orders }
{}

/// The rows of `site` for `french_orders.query`.
pub fn site_of_french_orders()
    ensures { MeanAs query.french_orders row.bound_in_french_orders row.site_of_french_orders }
{}

/// The rows of `temp` for `french_orders.query`.
pub fn temp_of_french_orders()
    ensures { MeanAs query.french_orders row.bound_in_french_orders row.temp_of_french_orders }
{}

/// The rows of `path` for `french_orders.query`.
pub fn path_of_french_orders()
    ensures { MeanAs query.french_orders row.bound_in_french_orders row.path_of_french_orders }
{}

/// The rows of `tables` for `french_orders.query`.
pub fn tables_of_french_orders()
    ensures { MeanAs query.french_orders row.bound_in_french_orders row.tables_of_french_orders }
{}

/// The rows of `all` for `french_orders.query`.
pub fn all_of_french_orders()
    ensures { MeanAs query.french_orders row.bound_in_french_orders row.all_of_french_orders }
{}

/// The rows of `none` for `french_orders.query`.
pub fn none_of_french_orders()
    ensures { MeanAs query.french_orders row.bound_in_french_orders row.none_of_french_orders }
{}

/// The rows of `nocols` for `french_orders.query`.
pub fn nocols_of_french_orders()
    ensures { MeanAs query.french_orders row.bound_in_french_orders row.nocols_of_french_orders }
{}

/// The rows of `orderby` for `french_orders.query`.
pub fn orderby_of_french_orders()
    ensures { MeanAs query.french_orders row.bound_in_french_orders row.orderby_of_french_orders }
{}

/// The rows of `querysite` for `french_orders.query`.
pub fn querysite_of_french_orders()
    ensures { MeanAs query.french_orders row.bound_in_french_orders row.querysite_of_french_orders }
{}

/// The rows of `inside` for `french_orders.query`.
pub fn inside_of_french_orders()
    ensures { MeanAs query.french_orders row.bound_in_french_orders row.inside_of_french_orders }
{}

/// The rows of `crossing` for `french_orders.query`.
pub fn crossing_of_french_orders()
    ensures { MeanAs query.french_orders row.bound_in_french_orders row.crossing_of_french_orders }
{}

/// The rows of `between` for `french_orders.query`.
pub fn between_of_french_orders()
    ensures { MeanAs query.french_orders row.bound_in_french_orders row.between_of_french_orders }
{}

/// The rows of `equalities` for `french_orders.query`.
pub fn equalities_of_french_orders()
    ensures { MeanAs query.french_orders row.bound_in_french_orders
        row.equalities_of_french_orders }
{}

/// The rows of `indexable` for `french_orders.query`.
pub fn indexable_of_french_orders()
    ensures { MeanAs query.french_orders row.bound_in_french_orders row.indexable_of_french_orders }
{}

/// The rows of `columns` for `french_orders.query`.
pub fn columns_of_french_orders()
    ensures { MeanAs query.french_orders row.bound_in_french_orders row.columns_of_french_orders }
{}

/// The rows of `keys` for `french_orders.query`.
pub fn keys_of_french_orders()
    ensures { MeanAs query.french_orders row.bound_in_french_orders row.keys_of_french_orders }
{}

/// The rows of `home` for `french_orders.query`.
pub fn home_of_french_orders()
    ensures { MeanAs query.french_orders row.bound_in_french_orders row.home_of_french_orders }
{}

/// The rows of `union` for `french_orders.query`.
pub fn union_of_french_orders()
    ensures { MeanAs query.french_orders row.bound_in_french_orders row.union_of_french_orders }
{}

/// The rows of `minus` for `french_orders.query`.
pub fn minus_of_french_orders()
    ensures { MeanAs query.french_orders row.bound_in_french_orders row.minus_of_french_orders }
{}

/// The rows of `meet` for `french_orders.query`.
pub fn meet_of_french_orders()
    ensures { MeanAs query.french_orders row.bound_in_french_orders row.meet_of_french_orders }
{}

/// The rows of `empty` for `french_orders.query`.
pub fn empty_of_french_orders()
    ensures { HoldAs query.french_orders row.bound_in_french_orders row.empty_of_french_orders }
{}

/// The rows of `single` for `french_orders.query`.
pub fn single_of_french_orders()
    ensures { HoldAs query.french_orders row.bound_in_french_orders row.single_of_french_orders }
{}

/// The rows of `same` for `french_orders.query`.
pub fn same_of_french_orders()
    ensures { HoldAs query.french_orders row.bound_in_french_orders row.same_of_french_orders }
{}

/// The rows of `within` for `french_orders.query`.
pub fn within_of_french_orders()
    ensures { HoldAs query.french_orders row.bound_in_french_orders row.within_of_french_orders }
{}

/// The rows of `begins` for `french_orders.query`.
pub fn begins_of_french_orders()
    ensures { HoldAs query.french_orders row.bound_in_french_orders row.begins_of_french_orders }
{}

/// The rows of `not` for `french_orders.query`.
pub fn not_of_french_orders()
    ensures { HoldAs query.french_orders row.bound_in_french_orders row.not_of_french_orders }
{}

/// The rows of `and` for `french_orders.query`.
pub fn and_of_french_orders()
    ensures { HoldAs query.french_orders row.bound_in_french_orders row.and_of_french_orders }
{}

/// The rows of `or` for `french_orders.query`.
pub fn or_of_french_orders()
    ensures { HoldAs query.french_orders row.bound_in_french_orders row.or_of_french_orders }
{}

/// The rows of `indexes` for `french_orders.query`.
pub fn indexes_of_french_orders()
    ensures { RangeAs query.french_orders row.bound_in_french_orders row.indexes_of_french_orders }
{}

/// The rows of `sites` for `french_orders.query`.
pub fn sites_of_french_orders()
    ensures { RangeAs query.french_orders row.bound_in_french_orders row.sites_of_french_orders }
{}

/// The rows of `members` for `french_orders.query`.
pub fn members_of_french_orders()
    ensures { RangeAs query.french_orders row.bound_in_french_orders row.members_of_french_orders }
{}

/// The rows of `each` for `french_orders.query`.
pub fn each_of_french_orders()
    ensures { RangeAs query.french_orders row.bound_in_french_orders row.each_of_french_orders }
{}

/// The rows of `equalities` for `compared.query`.
pub fn equalities_of_compared()
    ensures { MeanAs query.compared row.bound_in_compared row.equalities_of_compared }
{}

/// The rows of `inside` for `compared.query`.
pub fn inside_of_compared()
    ensures { MeanAs query.compared row.bound_in_compared row.inside_of_compared }
{}

/// The rows of `crossing` for `compared.query`.
pub fn crossing_of_compared()
    ensures { MeanAs query.compared row.bound_in_compared row.crossing_of_compared }
{}

/// The rows of `between` for `compared.query`.
pub fn between_of_compared()
    ensures { MeanAs query.compared row.bound_in_compared row.between_of_compared }
{}

/// The rows of `keys` for `compared.query`.
pub fn keys_of_compared()
    ensures { MeanAs query.compared row.bound_in_compared row.keys_of_compared }
{}
