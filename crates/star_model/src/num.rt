// Numbers from 0 to 10^18, whose arithmetic is cut at that bound.

ghost use Rattle.std.specs.Prelude.{◌≡◌, ◌≤◌};
ghost use Rattle.star_model.specs.Numbers.{top, cut, cut_sum, cut_difference, cut_product, cut_quotient};

use std::marker::Model;

const TOP: u64 = 1_000_000_000_000_000_000;

/// A number from 0 to 10^18: a cost in cost units, a count of rows or pages, a width in bytes, or a
/// weight of a site. What would be greater is 10^18, so no estimate wraps, and plans beyond the
/// bound tie.
#[derive(Clone, Copy, Debug, PartialEq, Eq, PartialOrd, Ord)]
pub struct Num {
    value: u64,
}

impl Model for Num {
    ghost use Rattle.std.specs.Prelude.{ℕ, ◌≤◌};
    ghost use Rattle.star_model.specs.Numbers.{top};

    ghost Value = { ℕ };

    ghost view = { λ a. a.value };

    ghost invariant = { λ a. a.value ≤ top };

    ghost inverse = { λ n. record { value = n } };
}

impl Num {
    /// The number, or 10^18 if that is less.
    pub fn cut(value: u64) -> Num
        ensures { result ≡ cut value }
    {
        if value < TOP {
            Num { value }
        } else {
            Num { value: TOP }
        }
    }

    pub fn get(self) -> u64
        ensures value { result ≡ self }
        ensures bound { result ≤ top }
    {
        self.value
    }
}

/// The sum, cut at 10^18.
pub fn cap_add(a: Num, b: Num) -> Num
    ensures { result ≡ cut_sum a b }
{
    Num::cut(a.get() + b.get())
}

/// The difference, 0 where `b` is greater.
pub fn cap_sub(a: Num, b: Num) -> Num
    ensures { result ≡ cut_difference a b }
{
    Num::cut(a.get().saturating_sub(b.get()))
}

/// The product, cut at 10^18.
pub fn cap_mul(a: Num, b: Num) -> Num
    ensures { result ≡ cut_product a b }
{
    let product = u128::from(a.get()) * u128::from(b.get());
    if product < 1_000_000_000_000_000_000 {
        Num {
            value: product as u64,
        }
    } else {
        Num { value: TOP }
    }
}

/// The quotient, rounded up. A divisor of 0 counts as 1.
pub fn cap_div(a: Num, b: Num) -> Num
    ensures { result ≡ cut_quotient a b }
{
    let divisor = b.get().max(1);
    Num::cut((a.get() + (divisor - 1)) / divisor)
}
