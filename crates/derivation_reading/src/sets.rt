// Reading the members of a set between braces.
ghost use Rattle.std.specs.Prelude.{◌≡◌, ◌<◌, ℕ, option_map};
ghost use Rattle.star_model.specs.Sets.{single, union};
ghost use Rattle.spelling.specs.Reading.{Reads};
ghost use Rattle.derivation_reading.specs.StatementReading.{member_of, members_behind, set_at};

use spelling::Cursor;
use star_model::sets::{PredSet, QuantSet};

/// A set of numbers below 32.
pub trait Members: Copy + Drop {
    ghost number: { Self → ℕ };

    fn none() -> Self
        ensures { number result ≡ 0 };

    fn with(self, n: u8) -> Self
        requires { n < 32 }
        ensures { number result ≡ union (number self) (single n) };
}

impl Members for QuantSet {
    ghost number = { λ s. s };

    fn none() -> Self {
        QuantSet::empty()
    }

    fn with(self, n: u8) -> Self {
        self.union(QuantSet::single(n))
    }
}

impl Members for PredSet {
    ghost number = { λ s. s };

    fn none() -> Self {
        PredSet::empty()
    }

    fn with(self, n: u8) -> Self {
        self.union(PredSet::single(n))
    }
}

// The member that a number stands for, counted from 1, where it isn't below the least that may
// come.
fn member_of(least: u8, number: u64) -> Option<u8>
    ensures { result ≡ member_of least number }
{
    if u64::from(least) < number && number < 33 {
        Some((number - 1) as u8)
    } else {
        None
    }
}

// The members up to the closing brace, of which there is one at least. They rise.
fn rising<S: Members>(cursor: &mut Cursor<'_>) -> Option<S>
    ensures { Reads (members_behind 32 0 0 cursor.old) (option_map S.number result) cursor.new }
{
    let mut set = S::none();
    let mut least = 0;
    for turn in 0..32u8 {
        let number = cursor.number()?;
        let member = member_of(least, number)?;
        set = set.with(member);
        if cursor.the_symbol(b"}").is_some() {
            return Some(set);
        }
        cursor.the_symbol(b",")?;
        least = member + 1;
    }
    None
}

/// A set with its braces.
#[tactic(auto, unfolding(crate::specs::StatementReading::set_at))]
pub fn set<S: Members>(cursor: &mut Cursor<'_>) -> Option<S>
    ensures { Reads (set_at cursor.old) (option_map S.number result) cursor.new }
{
    cursor.the_symbol(b"{")?;
    if cursor.the_symbol(b"}").is_some() {
        return Some(S::none());
    }
    rising(cursor)
}
