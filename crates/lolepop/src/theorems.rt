// The laws of the definitions, each the clause of a function that does nothing.

ghost use Rattle.std.specs.Prelude.{◌≡◌, true, List as Seq, [], ◌∷◌, Some, ◌↔◌};
ghost use Rattle.star_model.specs.Expected.{operator_of};
ghost use Rattle.star_model.specs.Operators.{step, flavour_of};
ghost use Rattle.star_model.specs.Plans.{vector, op_of};
ghost use Rattle.star_model.specs.Vectors.{is_better};
ghost use Rattle.star_model.specs.Requirements.{satisfies};
ghost use Rattle.star_model.specs.Exchange.{CostsPass, HasCard, MayStandFor, ChainsAreExchangeable};
ghost use Rattle.star_model.specs.DerivCases as deriv;
ghost use Rattle.star_model.specs.declared.derivations.Deriv.TheVariants as made;
ghost use Rattle.star_model.specs.declared.costs.CostEntry.{CostEntry};
ghost use Rattle.star_model.specs.declared.plans.GlueOp.{GlueOp};
ghost use Rattle.star_model.specs.declared.plans.Op.{Op};
ghost use Rattle.star_model.specs.declared.plans.Plan.{Plan};
ghost use Rattle.star_model.specs.declared.plans.Props.{Props};
ghost use Rattle.star_model.specs.declared.plans.Require.{Require};
ghost use Rattle.star_model.specs.declared.query.Query.{Query};
ghost use Rattle.star_model.specs.declared.rules.Flavour.{Flavour};
ghost use Rattle.star_model.specs.declared.values.RuleValue.{RuleValue};
ghost use Rattle.lolepop.specs.PlanTrees.{PlanTree, Leaf, Unary, Binary, top_vector, plan_under, Fits};
ghost use Rattle.lolepop.specs.Derived.{DerivedPlan, vector_of, derived_leaf, derived_unary, derived_binary, enforced};

/// A plan that has a vector has one tree that fits, with that vector at its top.
pub fn each_plan_has_one_tree()
    ensures vector { (q : Query) (costs : Seq CostEntry) (t : PlanTree) → Fits q costs t
        → vector q costs (plan_under t) ≡ Some (top_vector t) }
    ensures some { (q : Query) (costs : Seq CostEntry) (p : Plan) (v : Props)
        → vector q costs p ≡ Some v → (t : PlanTree) × Fits q costs t × (plan_under t ≡ p)
        × (top_vector t ≡ v) }
    ensures one { (q : Query) (costs : Seq CostEntry) (s t : PlanTree) → Fits q costs s
        → Fits q costs t → plan_under s ≡ plan_under t → s ≡ t }
{}

/// An applicable operator over trees that fit makes one that fits.
pub fn operators_fit_over_what_fits()
    ensures leaf { (q : Query) (costs : Seq CostEntry) (o : Op) (v : Props)
        → step q costs o [] ≡ Some v → Fits q costs (Leaf o v) }
    ensures unary { (q : Query) (costs : Seq CostEntry) (o : Op) (v : Props) (t : PlanTree)
        → Fits q costs t → step q costs o (top_vector t ∷ []) ≡ Some v
        → Fits q costs (Unary o v t) }
    ensures binary { (q : Query) (costs : Seq CostEntry) (o : Op) (v : Props) (s t : PlanTree)
        → Fits q costs s → Fits q costs t → step q costs o (top_vector s ∷ top_vector t ∷ [])
        ≡ Some v → Fits q costs (Binary o v s t) }
{}

/// An operator that is made of values has the flavour that it is made for.
pub fn operators_have_their_flavour()
    ensures { (f : Flavour) (values : Seq RuleValue) → flavour_of (operator_of f values) ≡ f }
{}

/// What an operator gives over derived plans is the node over these with its vector, and none where
/// it has no vector.
pub fn operators_give_their_vectors()
    ensures leaf { (q : Query) (costs : Seq CostEntry) (f : Flavour) (o : Op) (r : DerivedPlan)
        → (derived_leaf q costs f o ≡ Some r)
        ↔ ((step q costs o [] ≡ Some (vector_of r))
        × (r ≡ record { tree = Leaf o (vector_of r); deriv = made.Leaf f })) }
    ensures unary { (q : Query) (costs : Seq CostEntry) (f : Flavour) (o : Op) (e r : DerivedPlan)
        → (derived_unary q costs f o e ≡ Some r)
        ↔ ((step q costs o (vector_of e ∷ []) ≡ Some (vector_of r))
        × (r ≡ record { tree = Unary o (vector_of r) e.tree; deriv = deriv.Unary f e.deriv })) }
    ensures binary { (q : Query) (costs : Seq CostEntry) (f : Flavour) (o : Op)
        (d e r : DerivedPlan) → (derived_binary q costs f o d e ≡ Some r)
        ↔ ((step q costs o (vector_of d ∷ vector_of e ∷ []) ≡ Some (vector_of r))
        × (r ≡ record {
          tree = Binary o (vector_of r) d.tree e.tree;
          deriv = deriv.Binary f d.deriv
              e.deriv;
        })) }
    ensures enforced { (q : Query) (costs : Seq CostEntry) (r : Require) (word : GlueOp)
        (e g : DerivedPlan) → (enforced q costs r word e ≡ Some g)
        ↔ ((step q costs (op_of r word) (vector_of e ∷ []) ≡ Some (vector_of g))
        × (g ≡ record e { tree = Unary (op_of r word) (vector_of g) e.tree })) }
{}

/// A plan's number of rows is the estimate for its tables and predicates.
pub fn vectors_have_the_estimate()
    ensures plans { (q : Query) (costs : Seq CostEntry) (p : Plan) (v : Props)
        → vector q costs p ≡ Some v → HasCard q v }
    ensures trees { (q : Query) (costs : Seq CostEntry) (t : PlanTree) → Fits q costs t
        → HasCard q (top_vector t) }
{}

/// With better inputs an applicable operator stays applicable, and its result is better; likewise a
/// chain of Glue; and a better vector satisfies what the other does.
pub fn better_inputs_serve()
    ensures one { (q : Query) (costs : Seq CostEntry) → CostsPass costs → (o : Op) (u v : Props)
        → MayStandFor q u v → (r : Props) → step q costs o (v ∷ []) ≡ Some r
        → (s : Props) × (step q costs o (u ∷ []) ≡ Some s) × (is_better s r ≡ true) }
    ensures two { (q : Query) (costs : Seq CostEntry) → CostsPass costs → (o : Op) (u v w x : Props)
        → MayStandFor q u v → MayStandFor q w x → (r : Props) → step q costs o (v ∷ x ∷ []) ≡ Some r
        → (s : Props) × (step q costs o (u ∷ w ∷ []) ≡ Some s) × (is_better s r ≡ true) }
    ensures chains { ChainsAreExchangeable }
    ensures satisfying { (q : Query) (u v : Props) (r : Require) → is_better u v ≡ true
        → satisfies q v r ≡ true → satisfies q u r ≡ true }
{}
