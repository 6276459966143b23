// Sets of which no member covers another.

ghost use Rattle.std.specs.Prelude.{◌≡◌, None, [], length, IfOk, OnOk, OnErr};
ghost use Rattle.std.specs.Iterator.{YieldsFirstRef, item_count};
ghost use Rattle.dominance_prune.specs.Antichains.{IsAntichain};
ghost use Rattle.dominance_prune.specs.Gathering.{Gathers};
ghost use Rattle.dominance_prune.specs.Offers.{Answered, first_above};
ghost use Rattle.dominance_prune.specs.Iterating.{plan_iter_rest};

use crate::members;
use property_vector::Ranked;
use std::alloc::{AllocError, Global};
use std::marker::Model;

/// What became of an item that was offered to a set.
#[derive(Clone, Copy, Debug, PartialEq, Eq)]
pub enum Offer {
    /// It is the last member now, and the members that it covers are gone.
    Kept,
    /// The member at this position, the first that covers it, stands for it.
    Covered(usize),
}

/// Plans of one goal, or other items, in the order in which they were kept. No member covers
/// another, so the set is no larger than it must be to have something as good as each item that was
/// offered.
#[derive(Drop)]
pub struct PlanSet<T: Ranked> {
    members: Vec<T>,
}

impl<T: Ranked> Model for PlanSet<T> {
    ghost use Rattle.std.specs.Prelude.{List};
    ghost use Rattle.std.specs.Coded.{coded_list};
    ghost use Rattle.dominance_prune.specs.Antichains.{IsAntichain};

    ghost Value = { List T };

    ghost coded = { coded_list T.code };

    ghost view = { λ s. s.members.items };

    ghost invariant = { λ s. IsAntichain T.outranks s.members.items };
}

impl<T: Ranked> PlanSet<T> {
    /// The empty set. It takes no memory.
    pub fn new(alloc: Global) -> PlanSet<T>
        ensures { result ≡ [] }
    {
        PlanSet {
            members: Vec::new(alloc),
        }
    }

    pub fn len(&self) -> usize
        ensures { result ≡ length self.now }
    {
        self.members.len()
    }

    /// The members, in their order. It takes no memory.
    pub fn iter(&self) -> PlanIter<'_, T>
        ensures { plan_iter_rest result ≡ self.now }
    {
        PlanIter {
            members: self.members.as_slice(),
        }
    }

    /// Tells proofs that no member covers another, which the type keeps. It does nothing.
    pub fn apart(&self)
        ensures { IsAntichain T.outranks self.now }
    {
        let _ = &self.members;
    }

    /// Adds the item, in place of the members that it covers, unless a member covers it. Where
    /// memory is wanting, the set stays as it is and the item is dropped.
    pub fn offer(&mut self, item: T) -> Result<Offer, AllocError>
        ensures answered { IfOk result (Answered T.outranks self.old item self.new) }
        // What both answers come to.
        ensures gathered { OnOk result (Gathers T.outranks self.old self.new (λ x. x ≡ item)) }
        ensures memory { OnErr result (self.new ≡ self.old) }
        // Memory is asked for only where no member covers the item.
        ensures wanted { OnErr result (first_above T.outranks self.old item ≡ None) }
    {
        members::offer(&mut self.members, item)
    }
}

/// The members of a set that are still to come.
#[derive(Drop)]
pub struct PlanIter<'a, T> {
    members: &'a [T],
}

impl<'a, T> Iterator for PlanIter<'a, T> {
    type Item = &'a T;

    ghost use Rattle.std.specs.Iterator.{YieldsFirstRef, item_count};
    ghost use Rattle.dominance_prune.specs.Iterating.{plan_iter_rest};

    ghost next_gives = { YieldsFirstRef plan_iter_rest };

    ghost remaining = { item_count plan_iter_rest };

    fn next(&mut self) -> Option<&'a T> {
        let (first, others) = self.members.split_first()?;
        self.members = others;
        Some(first)
    }
}
