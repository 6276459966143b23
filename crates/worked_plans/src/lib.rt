//! Worked examples: what the definitions of planning say of them, computed by the check.
//!
//! Each function does nothing, and its clause is a claim with numbers that were found without the
//! definitions.
#![tactic(auto, unfolding(star_model::specs::Formulas::value, star_model::specs::Monotone::is_free, star_model::specs::Monotone::passes, star_model::specs::Monotone::nodes, star_model::specs::Monotone::offends, star_model::specs::Plans::vector, star_model::specs::Plans::is_chain, star_model::specs::Operators::step, star_model::specs::Operators::width_of, star_model::specs::Costs::formula_of, star_model::specs::Cardinality::card, star_model::specs::Selectivity::weighed, star_model::specs::Selectivity::select_of, star_model::specs::Predicates::used, star_model::specs::Predicates::eligible, star_model::specs::Predicates::crossing, star_model::specs::Sets::set_of, star_model::specs::Sets::has, star_model::specs::Sets::members, star_model::specs::Sets::single, star_model::specs::Sets::union, star_model::specs::Sets::meet, star_model::specs::Sets::minus, star_model::specs::Sets::is_within, star_model::specs::Sets::places, star_model::specs::Meaning::meaning, star_model::specs::Meaning::holds, star_model::specs::Vectors::begins, star_model::specs::Requirements::satisfies, star_model::specs::Canon::canon, star_model::specs::Canon::least_equal, star_model::specs::Vectors::is_better, star_model::specs::Expected::leaf_of, star_model::specs::Expected::unary_of, star_model::specs::Expected::binary_of, star_model::specs::Judging::judge, star_model::specs::Judging::judge_root, star_model::specs::Judging::node_count, star_model::specs::Kinds::kind_of, star_model::specs::Kinds::is_kinded, star_model::specs::Answers::bytes_below, star_model::specs::Accepted::values_in, star_model::specs::Accepted::references_in, star_model::specs::Accepted::operators_in, star_model::specs::Accepted::glues_in, star_model::specs::Accepted::values_of_condition, star_model::specs::Accepted::variables_in, star_model::specs::Accepted::height_within, star_model::specs::Accepted::weight_within))]

mod answers;
mod formulas;
mod kinds;
mod operators;
mod plans;
mod rule_files;
mod selectivities;
mod tables;
mod values;
mod well_formed;
