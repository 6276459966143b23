// The laws of the definitions, each the clause of a function that does nothing.

ghost use Rattle.std.specs.Prelude.{◌≡◌, true};
ghost use Rattle.star_model.specs.Vectors.{is_better};
ghost use Rattle.star_model.specs.Exchange.{HasCard};
ghost use Rattle.star_model.specs.declared.query.Query.{Query};
ghost use Rattle.star_model.specs.declared.plans.Props.{Props};

/// Of the vectors of one query's plans no two are better than each other: each has the number of
/// rows that its tables and predicates fix, which is all that the order does not compare.
pub fn better_is_antisymmetric()
    ensures { (q : Query) (v w : Props) → HasCard q v → HasCard q w → is_better v w ≡ true
        → is_better w v ≡ true → v ≡ w }
{}
