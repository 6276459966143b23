// Queries that are well formed over their catalogues.
ghost use Rattle.star_model.specs.WellFormed.{WellFormedQuery};
ghost use Rattle.worked_plans.specs.Queries as query;

/// The smallest query over the smallest catalogue.
pub fn smallest_query_is_well_formed()
    ensures { WellFormedQuery query.t }
{}

/// A query of five tables over a catalogue with two sites and four indexes.
pub fn realistic_query_is_well_formed()
    ensures { WellFormedQuery query.french_orders }
{}
