// A shelf of named files.
ghost use Rattle.std.specs.Prelude.{◌≡◌, ◌≤◌, ◌+◌, true, false, length, IfOk, IsErrOf};
ghost use Rattle.sb_outside.specs.Counts.{RoseBy};
ghost use Rattle.sb_outside.specs.Shelf.{ShelfState, TellsBytes, TellsMore, TellsRecords, Goes, FailsAt, NoFault};

use crate::{RawTable, ShelfFault};
use std::alloc::Global;

/// Where a program reads its files.
///
/// A shelf may tell what it holds, as one in memory does; real files are a shelf that doesn't.
/// Its counts of faults and of bytes stay at 2^64 - 1 once they are there.
pub trait Shelf {
    /// What it holds, where it tells, and what it counts.
    ghost state: { Self → ShelfState };

    /// All bytes of a file, where they are at most `max`.
    ///
    /// An implementation copies the name before it tries, since it keeps the name of a call that
    /// fails.
    fn bytes(&mut self, alloc: Global, name: &str, max: usize) -> Result<Vec<u8>, ShelfFault>
        ensures goes { Goes (state self.old) (state self.new) }
        ensures within { IfOk result (λ bytes. length bytes.items ≤ max) }
        ensures told { IfOk result (λ bytes. TellsBytes (state self.old).held name.now
            bytes.items) }
        ensures failed { IsErrOf result ShelfFault.Failed
            → FailsAt (state self.old) (state self.new) (false, name.now) }
        ensures no_fault { (IsErrOf result ShelfFault.Failed → ⊥)
            → NoFault (state self.old) (state self.new) }
        ensures too_long { IsErrOf result ShelfFault.TooLong
            → RoseBy (max + 1) (state self.old).taken (state self.new).taken }
        ensures told_too_long { IsErrOf result ShelfFault.TooLong → TellsMore (state self.old).held name.now max };

    /// All records of a file of comma-separated values, where its bytes are at most `max`: those
    /// that `read_table` reads from them.
    ///
    /// It is `Failed` too where `csv` refuses the bytes, and not for want of memory. The name is
    /// copied as by `bytes`.
    fn records(&mut self, alloc: Global, name: &str, max: usize) -> Result<RawTable, ShelfFault>
        ensures goes { Goes (state self.old) (state self.new) }
        ensures told { IfOk result (λ table. TellsRecords (state self.old).held name.now max
            table) }
        ensures failed { IsErrOf result ShelfFault.Failed
            → FailsAt (state self.old) (state self.new) (true, name.now) }
        ensures no_fault { (IsErrOf result ShelfFault.Failed → ⊥)
            → NoFault (state self.old) (state self.new) }
        ensures too_long { IsErrOf result ShelfFault.TooLong
            → RoseBy (max + 1) (state self.old).taken (state self.new).taken }
        ensures told_too_long { IsErrOf result ShelfFault.TooLong → TellsMore (state self.old).held name.now max };
}
