// Written by tools/worked_texts.
// What the grammars say of texts.
ghost use Rattle.rule_grammar.specs.Rules.{SpellsRules};
ghost use Rattle.catalogue.specs.Catalogues.{SpellsCatalogue};
ghost use Rattle.query_graph.specs.Queries.{SpellsQuery};
ghost use Rattle.derivation_reading.specs.Derivations.{SpellsDerivation};
ghost use Rattle.rule_grammar.specs.Rules as laid_rules;
ghost use Rattle.catalogue.specs.Catalogues as laid_catalogue;
ghost use Rattle.derivation_reading.specs.Derivations as laid_derivation;
ghost use Rattle.std.specs.Prelude.{◌≡◌};
ghost use Rattle.worked_plans.specs.RuleFiles as rule_file;
ghost use Rattle.worked_plans.specs.Catalogues as catalogue;
ghost use Rattle.worked_plans.specs.Queries as query;
ghost use Rattle.worked_plans.specs.Derivations as tree;
ghost use Rattle.worked_texts.specs.AllForms as form;
ghost use Rattle.worked_texts.specs.Texts as text;

/// The text `examples/hash.rules`.
pub fn rules_hash()
    ensures { SpellsRules text.rules_hash rule_file.hash }
{}

/// The text `examples/intersect.rules`.
pub fn rules_intersect()
    ensures { SpellsRules text.rules_intersect rule_file.intersect }
{}

/// The text `examples/merge.rules`.
pub fn rules_merge()
    ensures { SpellsRules text.rules_merge rule_file.merge }
{}

/// The text `examples/skewed.rules`.
pub fn rules_skewed()
    ensures { SpellsRules text.rules_skewed rule_file.skewed }
{}

/// The text `examples/standard.rules`.
pub fn rules_standard()
    ensures { SpellsRules text.rules_standard rule_file.standard }
{}

/// The text `examples/employees.catalogue`.
pub fn catalogue_employees()
    ensures { SpellsCatalogue text.catalogue_employees catalogue.employees }
{}

/// The text `examples/orders.catalogue`.
pub fn catalogue_orders()
    ensures { SpellsCatalogue text.catalogue_orders catalogue.orders }
{}

/// The text `examples/two_sites.catalogue`.
pub fn catalogue_two_sites()
    ensures { SpellsCatalogue text.catalogue_two_sites catalogue.two_sites }
{}

/// The text `examples/cities.query`.
pub fn query_cities()
    ensures { SpellsQuery catalogue.staff text.query_cities query.cities }
{}

/// The text `examples/french_orders.query`.
pub fn query_french_orders()
    ensures { SpellsQuery catalogue.orders text.query_french_orders query.french_orders }
{}

/// The text `examples/pairs.query`.
pub fn query_pairs()
    ensures { SpellsQuery catalogue.numbers text.query_pairs query.pairs }
{}

/// The text `examples/shipped.query`.
pub fn query_shipped()
    ensures { SpellsQuery catalogue.two_sites text.query_shipped query.shipped }
{}

/// The text `examples/t.query`.
pub fn query_t()
    ensures { SpellsQuery catalogue.t text.query_t query.t }
{}

/// The text `examples/plans/both_indexes.derivation`.
pub fn derivation_both_indexes()
    ensures { SpellsDerivation text.derivation_both_indexes tree.both_indexes }
{}

/// The text `examples/plans/false_condition.derivation`.
pub fn derivation_false_condition()
    ensures { SpellsDerivation text.derivation_false_condition tree.false_condition }
{}

/// The text `examples/plans/pushed_twice.derivation`.
pub fn derivation_pushed_twice()
    ensures { SpellsDerivation text.derivation_pushed_twice tree.pushed_twice }
{}

/// The text `examples/plans/shipped_then_sorted.derivation`.
pub fn derivation_shipped_then_sorted()
    ensures { SpellsDerivation text.derivation_shipped_then_sorted tree.shipped_then_sorted }
{}

/// The text `examples/plans/smallest.derivation`.
pub fn derivation_smallest()
    ensures { SpellsDerivation text.derivation_smallest tree.smallest }
{}

/// The text `tools/texts/all_forms.rules`.
pub fn rules_of_all_forms()
    ensures { SpellsRules text.rules_of_all_forms form.forms_of_rules }
{}

/// The text `tools/texts/all_forms.query`.
pub fn query_of_all_forms()
    ensures { SpellsQuery catalogue.employees text.query_of_all_forms form.forms_of_query }
{}

/// The text `tools/texts/all_forms.derivation`.
pub fn derivation_of_all_forms()
    ensures { SpellsDerivation text.derivation_of_all_forms form.forms_of_derivation }
{}

/// The layout `tools/texts/laid_out.rules`.
pub fn laid_out_rules()
    ensures { laid_rules.canonical form.forms_of_rules ≡ text.laid_out_rules }
{}

/// The layout `tools/texts/laid_out.catalogue`.
pub fn laid_out_catalogue()
    ensures { laid_catalogue.canonical catalogue.employees ≡ text.laid_out_catalogue }
{}

/// The layout `tools/texts/laid_out.derivation`.
pub fn laid_out_derivation()
    ensures { laid_derivation.canonical form.forms_of_derivation ≡ text.laid_out_derivation }
{}
