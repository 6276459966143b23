// Sets of numbers below 32, kept as masks.

ghost use Rattle.std.specs.Prelude.{◌≡◌, ◌<◌, ◌^◌};
ghost use Rattle.star_model.specs.Sets.{has, single, union, meet, minus, is_within, size, splits};
ghost use Rattle.star_model.specs.Splits.{splits_left, PartFrom};

use std::marker::Model;

/// A set of quantifiers.
#[derive(Clone, Copy, Debug, Default, PartialEq, Eq, PartialOrd, Ord, Hash)]
pub struct QuantSet {
    mask: u32,
}

impl Model for QuantSet {
    ghost use Rattle.std.specs.Prelude.{ℕ};

    ghost Value = { ℕ };

    ghost view = { λ a. a.mask };

    ghost inverse = { λ n. record { mask = n } };
}

impl QuantSet {
    pub fn empty() -> Self
        ensures { result ≡ 0 }
    {
        QuantSet { mask: 0 }
    }

    #[tactic(auto, unfolding(crate::specs::Sets::single))]
    pub fn single(n: u8) -> Self
        requires { n < 32 }
        ensures { result ≡ single n }
    {
        QuantSet { mask: 1 << n }
    }

    #[tactic(auto, using(crate::proofs::SetLaws::has_shift_rules))]
    pub fn has(self, n: u8) -> bool
        ensures { result ≡ has self n }
    {
        n < 32 && (self.mask >> n) & 1 == 1
    }

    #[tactic(auto, unfolding(crate::specs::Sets::union))]
    pub fn union(self, other: Self) -> Self
        ensures { result ≡ union self other }
    {
        QuantSet {
            mask: self.mask | other.mask,
        }
    }

    #[tactic(auto, unfolding(crate::specs::Sets::meet))]
    pub fn meet(self, other: Self) -> Self
        ensures { result ≡ meet self other }
    {
        QuantSet {
            mask: self.mask & other.mask,
        }
    }

    #[tactic(auto, unfolding(crate::specs::Sets::minus))]
    pub fn minus(self, other: Self) -> Self
        ensures { result ≡ minus self other }
    {
        QuantSet {
            mask: self.mask & !other.mask,
        }
    }

    #[tactic(auto, using(crate::proofs::SetLaws::within_rules))]
    pub fn within(self, other: Self) -> bool
        ensures { result ≡ is_within self other }
    {
        self.mask & other.mask == self.mask
    }

    #[tactic(auto, using(crate::proofs::SetLaws::size_rules))]
    pub fn len(self) -> u32
        ensures { result ≡ size self }
    {
        self.mask.count_ones()
    }
}

/// A set of predicates.
#[derive(Clone, Copy, Debug, Default, PartialEq, Eq, PartialOrd, Ord, Hash)]
pub struct PredSet {
    mask: u32,
}

impl Model for PredSet {
    ghost use Rattle.std.specs.Prelude.{ℕ};

    ghost Value = { ℕ };

    ghost view = { λ a. a.mask };

    ghost inverse = { λ n. record { mask = n } };
}

impl PredSet {
    pub fn empty() -> Self
        ensures { result ≡ 0 }
    {
        PredSet { mask: 0 }
    }

    #[tactic(auto, unfolding(crate::specs::Sets::single))]
    pub fn single(n: u8) -> Self
        requires { n < 32 }
        ensures { result ≡ single n }
    {
        PredSet { mask: 1 << n }
    }

    #[tactic(auto, using(crate::proofs::SetLaws::has_shift_rules))]
    pub fn has(self, n: u8) -> bool
        ensures { result ≡ has self n }
    {
        n < 32 && (self.mask >> n) & 1 == 1
    }

    #[tactic(auto, unfolding(crate::specs::Sets::union))]
    pub fn union(self, other: Self) -> Self
        ensures { result ≡ union self other }
    {
        PredSet {
            mask: self.mask | other.mask,
        }
    }

    #[tactic(auto, unfolding(crate::specs::Sets::meet))]
    pub fn meet(self, other: Self) -> Self
        ensures { result ≡ meet self other }
    {
        PredSet {
            mask: self.mask & other.mask,
        }
    }

    #[tactic(auto, unfolding(crate::specs::Sets::minus))]
    pub fn minus(self, other: Self) -> Self
        ensures { result ≡ minus self other }
    {
        PredSet {
            mask: self.mask & !other.mask,
        }
    }

    #[tactic(auto, using(crate::proofs::SetLaws::within_rules))]
    pub fn within(self, other: Self) -> bool
        ensures { result ≡ is_within self other }
    {
        self.mask & other.mask == self.mask
    }

    #[tactic(auto, using(crate::proofs::SetLaws::size_rules))]
    pub fn len(self) -> u32
        ensures { result ≡ size self }
    {
        self.mask.count_ones()
    }
}

impl QuantSet {
    /// Every ordered pair of nonempty disjoint sets with this union, each once.
    pub fn splits(self) -> Splits
        ensures { splits_left result ≡ splits self }
    {
        Splits {
            whole: self.mask,
            next: 1,
        }
    }
}

/// The ordered splits of a set, by the number of the first part.
#[derive(Drop)]
pub struct Splits {
    whole: u32,
    next: u32,
}

impl Iterator for Splits {
    type Item = (QuantSet, QuantSet);

    ghost use Rattle.std.specs.Iterator.{YieldsFirst, item_count};
    ghost use Rattle.star_model.specs.Splits.{splits_left};

    ghost next_gives = { YieldsFirst splits_left };

    ghost remaining = { item_count splits_left };

    fn next(&mut self) -> Option<(QuantSet, QuantSet)> {
        let first = self.next;
        let found = next_part(self.whole, first);
        if found < self.whole {
            self.next = found + 1;
            Some((
                QuantSet { mask: found },
                QuantSet {
                    mask: self.whole & !found,
                },
            ))
        } else {
            self.next = found;
            None
        }
    }
}

// The first part of the set from this number on, or the set's number.
#[tactic(auto, using(crate::proofs::SplitLaws::split_rules))]
fn next_part(whole: u32, from: u32) -> u32
    ensures { PartFrom whole from result }
{
    let mut at = from;
    while at < whole {
        if at & whole == at {
            return at;
        }
        at += 1;
    }
    at
}
