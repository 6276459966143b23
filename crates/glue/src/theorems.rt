// The laws of the definitions, each the clause of a function that does nothing.

ghost use Rattle.std.specs.Prelude.{◌≡◌, true, List, Contains, map};
ghost use Rattle.star_model.specs.Plans.{is_chain};
ghost use Rattle.star_model.specs.declared.plans.GlueOp.{GlueOp};
ghost use Rattle.star_model.specs.declared.plans.Require.{Require};

use crate::chains::CHAINS;

/// Each chain of a requirement is one of 16.
pub fn chains_are_few()
    ensures { (r : Require) (chain : List GlueOp) → is_chain r chain ≡ true
        → Contains (map (λ words. words.now) CHAINS) chain }
{}
