// The sets of calls of STARs.

ghost use Rattle.std.specs.Prelude.{◌≡◌, ◌++◌, ◌∷◌, [], None, OnOk, OnErr, IfOk};
ghost use Rattle.std.specs.Option.{option_copied};
ghost use Rattle.shared_sets.specs.Tables.{same_call, kept_for};

use crate::equality::are_same_values;
use crate::shared_set::SharedSet;
use dominance_prune::PlanSet;
use lolepop::Entry;
use star_model::lists::Name;
use star_value::Env;
use std::alloc::{AllocError, Global};
use std::marker::Model;

/// A STAR with the values of its parameters.
#[derive(Drop)]
pub struct StarCall {
    pub star: Name,
    pub env: Env,
}

/// The sets of calls of STARs, each call once, in the order in which they were kept.
#[derive(Drop)]
pub struct RefTable {
    alloc: Global,
    kept: Vec<(StarCall, SharedSet)>,
}

impl Model for RefTable {
    ghost use Rattle.std.specs.Prelude.{List};
    ghost use Rattle.std.specs.Coded.{coded_list, coded×};
    ghost use Rattle.lolepop.specs.Derived.{DerivedPlan};
    ghost use Rattle.lolepop.specs.DerivedCode.{derived_code};
    ghost use Rattle.shared_sets.specs.declared.ref_table.StarCall.{StarCall};
    ghost use Rattle.shared_sets.specs.contracts.ref_table.StarCall as the_call;

    ghost Value = { List (StarCall × List DerivedPlan) };

    ghost coded = { coded_list (coded× the_call.the_row.coded (coded_list derived_code)) };

    ghost view = { λ t. t.kept.items };
}

fn is_call(call: &StarCall, star: &Name, env: &Env) -> bool
    ensures { result ≡ same_call (record { star = star.now; env = env.now }) call.now }
{
    star.as_slice() == call.star.as_slice() && are_same_values(env.as_slice(), call.env.as_slice())
}

fn copied_call(alloc: Global, star: &Name, env: &Env) -> Result<StarCall, AllocError>
    ensures { IfOk result (λ call. call ≡ record { star = star.now; env = env.now }) }
{
    Ok(StarCall {
        star: star.copy(alloc)?,
        env: env.copied(),
    })
}

impl RefTable {
    /// The empty table. It takes no memory.
    pub fn new(alloc: Global) -> RefTable
        ensures { result ≡ [] }
    {
        RefTable {
            alloc,
            kept: Vec::new(alloc),
        }
    }

    /// The set that was kept for the STAR under these values of its parameters, if one was, to be
    /// shared. It takes no memory.
    pub fn find_shared(&self, star: &Name, env: &Env) -> Option<&SharedSet>
        ensures { option_copied result ≡ kept_for self.now star.now env.now }
    {
        let (_, plans) = self.kept.iter().find(|(call, _)| is_call(call, star, env))?;
        Some(plans)
    }

    /// The set that was kept for the STAR under these values of its parameters, if one was. It
    /// takes no memory.
    pub fn find(&self, star: &Name, env: &Env) -> Option<&PlanSet<Entry>>
        ensures { option_copied result ≡ kept_for self.now star.now env.now }
    {
        Some(self.find_shared(star, env)?.get())
    }

    /// Keeps the set for the STAR under these values of its parameters. Where memory is wanting,
    /// the table stays as it is and the set is dropped.
    pub fn keep(&mut self, star: &Name, env: &Env, plans: PlanSet<Entry>) -> Result<(), AllocError>
        requires { kept_for self.old star.now env.now ≡ None }
        ensures kept { OnOk result (self.new ≡ self.old
            ++ (record { star = star.now; env = env.now }, plans) ∷ []) }
        ensures memory { OnErr result (self.new ≡ self.old) }
    {
        let plans = SharedSet::new(self.alloc, plans)?;
        self.keep_shared(star, env, plans)
    }

    /// The same of a set that others have too.
    pub fn keep_shared(
        &mut self,
        star: &Name,
        env: &Env,
        plans: SharedSet,
    ) -> Result<(), AllocError>
        requires { kept_for self.old star.now env.now ≡ None }
        ensures kept { OnOk result (self.new ≡ self.old
            ++ (record { star = star.now; env = env.now }, plans) ∷ []) }
        ensures memory { OnErr result (self.new ≡ self.old) }
    {
        let call = copied_call(self.alloc, star, env)?;
        self.kept.push((call, plans))?;
        Ok(())
    }
}
