// Lists of members.

ghost use Rattle.std.specs.Prelude.{◌≡◌, ◌≤◌, None, IfOk, OnErr};
ghost use Rattle.std.specs.Vec.{vec_capacity, vec_len};
ghost use Rattle.dominance_prune.specs.Offers.{Answered, first_above, survivors};

use crate::plan_set::Offer;
use property_vector::Ranked;
use std::alloc::AllocError;

fn first_cover<T: Ranked>(members: &[T], item: &T) -> Option<usize>
    ensures { result ≡ first_above T.outranks members.now item.now }
{
    members.iter().position(|member| member.covers(item))
}

fn drop_covered<T: Ranked>(members: &mut Vec<T>, item: &T)
    ensures items { members.new.items ≡ survivors T.outranks members.old.items item.now }
    ensures room { vec_capacity members.new ≡ vec_capacity members.old }
    ensures len { vec_len members.new ≤ vec_len members.old }
{
    members.retain(|member| !item.covers(member));
}

pub fn offer<T: Ranked>(members: &mut Vec<T>, item: T) -> Result<Offer, AllocError>
    ensures answered { IfOk result (Answered T.outranks members.old.items item members.new.items) }
    ensures memory { OnErr result (members.new.items ≡ members.old.items) }
    ensures wanted { OnErr result (first_above T.outranks members.old.items item ≡ None) }
{
    if let Some(first) = first_cover(members.as_slice(), &item) {
        return Ok(Offer::Covered(first));
    }
    // Room first: a member that is dropped cannot come back.
    members.reserve(1)?;
    drop_covered(members, &item);
    members.push(item)?;
    Ok(Offer::Kept)
}
