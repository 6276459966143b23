// Sets whose members are printed.

ghost use Rattle.std.specs.Prelude.{◌≡◌, ℕ};
ghost use Rattle.star_model.specs.Sets.{has};

use star_model::sets::{PredSet, QuantSet};

/// A set of numbers below 32.
pub trait Members: Copy {
    ghost number: { Self → ℕ };

    fn has(self, n: u8) -> bool
        ensures { result ≡ has (number self) n };
}

impl Members for QuantSet {
    ghost number = { λ s. s };

    fn has(self, n: u8) -> bool {
        QuantSet::has(self, n)
    }
}

impl Members for PredSet {
    ghost number = { λ s. s };

    fn has(self, n: u8) -> bool {
        PredSet::has(self, n)
    }
}
