// Values of which one may stand in place of another.

ghost use Rattle.std.specs.Prelude.{◌≡◌, Bool, true};

use crate::order::better;
use star_model::plans::Props;

/// A value that may cover another of its type: be at least as good, so that the other needn't be
/// kept.
pub trait Ranked: Drop {
    /// Whether the first covers the second.
    ghost outranks: { Self → Self → Bool };

    /// Whether it covers the other. It takes no memory.
    fn covers(&self, other: &Self) -> bool
        ensures { result ≡ outranks self.now other.now };

    ghost reflexive: { (x : Self) → outranks x x ≡ true };

    ghost transitive: { (x y z : Self) → outranks x y ≡ true → outranks y z ≡ true → outranks x z ≡ true };
}

impl Ranked for Props {
    ghost use Rattle.star_model.specs.Vectors.{is_better};
    ghost use Rattle.star_model.proofs.Laws.{better_reflexive, better_transitive};

    ghost outranks = { is_better };

    ghost reflexive = { better_reflexive };

    ghost transitive = { better_transitive };

    fn covers(&self, other: &Props) -> bool {
        better(self, other)
    }
}
