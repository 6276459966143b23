// Laws of what shelves tell and count, for proofs of crates above. The functions do nothing.
ghost use Rattle.std.specs.Prelude.{◌≡◌, ◌+◌, ◌<◌, ℕ, List, length, Option, Some};
ghost use Rattle.sb_outside.specs.Records.{Records};
ghost use Rattle.sb_outside.specs.Shelf.{Files, Call, ShelfState, TellsBytes, TellsMore, TellsRecords, GoesBy, FailsAt, NoFault};

/// Where there was no call, nothing went on.
pub fn no_call()
    ensures { (state : ShelfState) → GoesBy 0 state state × NoFault state state }
{}

/// The bounds on calls add up.
pub fn goes_on()
    ensures { (before mid now : ShelfState) (a b : ℕ) → GoesBy a before mid → GoesBy b mid now
        → GoesBy (a + b) before now }
{}

/// Calls of which none failed may be put together.
pub fn no_fault_on()
    ensures { (before mid now : ShelfState) → NoFault before mid → NoFault mid now
        → NoFault before now }
{}

/// A call that failed after calls that didn't is the failed one of them all.
pub fn fails_on()
    ensures { (before mid now : ShelfState) (call : Call) → NoFault before mid
        → FailsAt mid now call → FailsAt before now call }
{}

/// A shelf that tells holds one content under a name.
pub fn one_content()
    ensures { (files : Files) (name a b : List ℕ) → TellsBytes (Some files) name a
        → TellsBytes (Some files) name b → a ≡ b }
{}

/// A shelf that tells holds one table under a name, whatever the limits.
pub fn one_table()
    ensures { (files : Files) (name : List ℕ) (most limit : ℕ) (table other : Records)
        → TellsRecords (Some files) name most table → TellsRecords (Some files) name limit other
        → table ≡ other }
{}

/// Told or not, where a content is too long there are bytes that it may be.
pub fn long_content()
    ensures { (told : Option Files) (name : List ℕ) (most : ℕ) → TellsMore told name most
        → (bytes : List ℕ) × TellsBytes told name bytes × (most < length bytes) }
{}
