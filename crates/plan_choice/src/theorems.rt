// The laws of the definitions, each the clause of a function that does nothing.

ghost use Rattle.std.specs.Prelude.{◌≡◌, List as Seq, []};
ghost use Rattle.star_model.specs.Accepted.{IsAccepted};
ghost use Rattle.star_model.specs.Derivations.{HasVector, IsRoot};
ghost use Rattle.star_model.specs.Expected.{query_goal};
ghost use Rattle.star_model.specs.WellFormed.{WellFormedQuery};
ghost use Rattle.star_model.specs.declared.derivations.Deriv.{Deriv};
ghost use Rattle.star_model.specs.declared.plans.Props.{Props};
ghost use Rattle.star_model.specs.declared.query.Query.{Query};
ghost use Rattle.star_model.specs.declared.rules.RuleFile.{RuleFile};
ghost use Rattle.plan_choice.specs.FrontierLists.{IsFrontierList};

/// Where the goal of a well-formed query has a valid node, the query has a root derivation under an
/// accepted file: Glue can sort the rows as the query asks and ship them to the site that it names.
pub fn root_derivations_exist()
    ensures { (q : Query) (rules : RuleFile) → WellFormedQuery q → IsAccepted rules
        → (d : Deriv) (v : Props) → HasVector q rules d (query_goal q) v
        → (tree : Deriv) × (w : Props) × IsRoot q rules tree w }
{}

/// The list of a query's frontier is empty exactly where the query has no plan.
pub fn lists_are_empty_without_plans()
    ensures none { (q : Query) (rules : RuleFile) → IsFrontierList q rules []
        → (d : Deriv) (v : Props) → IsRoot q rules d v → ⊥ }
    ensures some { (q : Query) (rules : RuleFile) → WellFormedQuery q → IsAccepted rules
        → (list : Seq Props) → IsFrontierList q rules list → (list ≡ [] → ⊥)
        → (tree : Deriv) × (w : Props) × IsRoot q rules tree w }
{}
