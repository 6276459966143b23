// The sets of goals.

ghost use Rattle.std.specs.Prelude.{◌≡◌, ◌<◌, ◌++◌, ◌∷◌, [], None, Some, length, filter, not, slice_get, OnOk, OnErr};
ghost use Rattle.std.specs.List.{IsDistinct};
ghost use Rattle.std.specs.Option.{option_copied, option_map};
ghost use Rattle.table_set_memo.specs.Memos.{same_goal, goals_of, plans_at};

use dominance_prune::PlanSet;
use indexmap::IndexMap;
use lolepop::Entry;
use star_model::plans::Goal;
use std::alloc::{AllocError, Global};
use std::marker::Model;

/// The sets of plans of goals, each goal once, in the order in which they were put.
#[derive(Drop)]
pub struct Memo {
    sets: IndexMap<Goal, PlanSet<Entry>>,
}

impl Model for Memo {
    ghost use Rattle.std.specs.Prelude.{List};
    ghost use Rattle.std.specs.Coded.{coded_list, coded×};
    ghost use Rattle.star_model.specs.contracts.plans.Goal as the_goal;
    ghost use Rattle.lolepop.specs.DerivedCode.{derived_code};
    ghost use Rattle.table_set_memo.specs.Memos.{GoalSet};

    ghost Value = { List GoalSet };

    ghost coded = { coded_list (coded× the_goal.the_row.coded (coded_list derived_code)) };

    ghost view = { λ m. m.sets.entries };
}

impl Memo {
    /// The empty memo. It takes no memory.
    pub fn new(alloc: Global) -> Memo
        ensures { result ≡ [] }
    {
        Memo {
            sets: IndexMap::new(alloc),
        }
    }

    /// How many goals are held.
    pub fn len(&self) -> usize
        ensures { result ≡ length self.now }
    {
        self.sets.len()
    }

    /// The set of the goal, if it is held. It takes no memory.
    pub fn get(&self, goal: &Goal) -> Option<&PlanSet<Entry>>
        ensures { option_copied result ≡ plans_at self.now goal.now }
    {
        self.sets.get(goal)
    }

    /// Adds the goal with its set. Where memory is wanting, the memo stays as it is and the set is
    /// dropped.
    pub fn put(&mut self, goal: Goal, plans: PlanSet<Entry>) -> Result<(), AllocError>
        requires { plans_at self.old goal ≡ None }
        ensures put { OnOk result (self.new ≡ self.old ++ (goal, plans) ∷ []) }
        ensures memory { OnErr result (self.new ≡ self.old) }
    {
        self.sets.insert(goal, plans)?;
        Ok(())
    }

    /// Takes the goal with its set out, if it is held. The others keep their order. It takes no
    /// memory.
    pub fn remove(&mut self, goal: &Goal) -> Option<PlanSet<Entry>>
        ensures set { result ≡ plans_at self.old goal.now }
        ensures others { self.new ≡ filter (λ s. not (same_goal goal.now s.0)) self.old }
    {
        self.each_once();
        self.sets.shift_remove(goal)
    }

    /// The goal that was put at this place, from 0. It takes no memory.
    pub fn goal_at(&self, i: usize) -> &Goal
        requires { i < length self.now }
        ensures { option_map (λ s. s.0) (slice_get self.now i) ≡ Some result.now }
    {
        match self.sets.get_index(i) {
            Some((goal, _)) => goal,
            None => unreachable!(),
        }
    }

    /// Tells proofs that each goal is held once, which the type keeps. It does nothing.
    pub fn each_once(&self)
        ensures { IsDistinct same_goal (goals_of self.now) }
    {
        let _ = self.sets.len();
    }
}
