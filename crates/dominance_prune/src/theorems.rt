// The laws of the definitions, each the clause of a function that does nothing.

ghost use Rattle.std.specs.Prelude.{◌≡◌, List, [], true, Contains};
ghost use Rattle.dominance_prune.specs.Antichains.{IsAntichain};
ghost use Rattle.dominance_prune.specs.Offers.{Run, Stands};
ghost use Rattle.dominance_prune.specs.declared.plan_set.Offer.{Offer};

use property_vector::Ranked;

/// After any offers to a new set each item that was offered is covered by a member, each member was
/// offered, no member covers another, and an item that was offered covers a member only where the
/// two cover each other. An offer that found no memory is none of these: it leaves the set.
pub fn offers_leave_the_uncovered<T: Ranked>()
    ensures { (steps : List (T × Offer)) (new : List T) → Run T.outranks steps [] new
        → Stands T.outranks steps new }
{}

/// Where no member covers another, what covers a member and is one too is that member.
pub fn members_are_covered_by_themselves_alone<T: Ranked>()
    ensures { (members : List T) → IsAntichain T.outranks members → (m e : T) → Contains members m
        → Contains members e → T.outranks m e ≡ true → m ≡ e }
{}
