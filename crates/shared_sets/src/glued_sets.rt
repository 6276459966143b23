// The sets that Glue made.

ghost use Rattle.std.specs.Prelude.{◌≡◌, ◌++◌, ◌∷◌, [], None, OnOk, OnErr};
ghost use Rattle.std.specs.Cmp.Rules.{hashing};
ghost use Rattle.std.specs.Hash as fed;
ghost use Rattle.std.specs.Option.{option_copied};
ghost use Rattle.std.proofs.Common.{rules};
ghost use Rattle.shared_sets.specs.Tables.{same_request, glued_for};

use crate::equality::is_same_require;
use crate::shared_set::SharedSet;
use indexmap::IndexMap;
use star_model::plans::{Goal, Require};
use std::alloc::{AllocError, Global};
use std::hash::{Hash, Hasher};
use std::marker::Model;

/// What Glue is asked for: plans of a goal that satisfy a requirement.
#[derive(Drop)]
pub struct GlueRequest {
    pub goal: Goal,
    pub require: Require,
}

impl PartialEq for GlueRequest {
    ghost use Rattle.shared_sets.specs.RequestCases.{requests_compare};

    ghost eq = { same_request };

    ghost laws = { requests_compare };

    fn eq(&self, other: &GlueRequest) -> bool {
        self.goal == other.goal && is_same_require(&self.require, &other.require)
    }
}

impl Eq for GlueRequest {
    ghost use Rattle.shared_sets.specs.RequestCases.{requests_are_equal};

    ghost laws = { requests_are_equal };
}

impl Hash for GlueRequest {
    ghost hash_input = { λ r. fed.u32 r.goal.tables ++ fed.u32 r.goal.pushed };

    ghost respects_eq = { Prim.search (hashing, rules) };

    // Few requirements are made of one goal.
    fn hash<H: Hasher>(&self, state: &mut H) {
        self.goal.hash(state);
    }
}

/// The sets that Glue made, each for its request, which is held once.
#[derive(Drop)]
pub struct GluedSets {
    sets: IndexMap<GlueRequest, SharedSet>,
}

impl Model for GluedSets {
    ghost use Rattle.std.specs.Prelude.{List};
    ghost use Rattle.std.specs.Coded.{coded_list, coded×};
    ghost use Rattle.lolepop.specs.Derived.{DerivedPlan};
    ghost use Rattle.lolepop.specs.DerivedCode.{derived_code};
    ghost use Rattle.shared_sets.specs.declared.glued_sets.GlueRequest.{GlueRequest};
    ghost use Rattle.shared_sets.specs.contracts.glued_sets.GlueRequest as the_request;

    ghost Value = { List (GlueRequest × List DerivedPlan) };

    ghost coded = { coded_list (coded× the_request.the_row.coded (coded_list derived_code)) };

    ghost view = { λ t. t.sets.entries };
}

impl GluedSets {
    /// The empty table. It takes no memory.
    pub fn new(alloc: Global) -> GluedSets
        ensures { result ≡ [] }
    {
        GluedSets {
            sets: IndexMap::new(alloc),
        }
    }

    /// The set that was put for the request, if one was. It takes no memory.
    pub fn get(&self, request: &GlueRequest) -> Option<&SharedSet>
        ensures { option_copied result ≡ glued_for self.now request.now }
    {
        self.sets.get(request)
    }

    /// Adds the set for the request. Where memory is wanting, the table stays as it is.
    pub fn put(&mut self, request: GlueRequest, plans: SharedSet) -> Result<(), AllocError>
        requires { glued_for self.old request ≡ None }
        ensures put { OnOk result (self.new ≡ self.old ++ (request, plans) ∷ []) }
        ensures memory { OnErr result (self.new ≡ self.old) }
    {
        self.sets.insert(request, plans)?;
        Ok(())
    }
}
