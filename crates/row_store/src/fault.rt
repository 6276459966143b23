// What is wrong with the records of a table.
ghost use Rattle.std.specs.Prelude.{◌≡◌};
ghost use Rattle.row_store.specs.declared.fault.TableFault.TheVariants.{Memory};

use std::alloc::AllocError;

/// Why records are no rows of a table: the fault that comes first in reading.
#[derive(Clone, Copy, Debug, PartialEq, Eq)]
pub enum TableFault {
    /// There is no header, or a column of the catalogue doesn't stand exactly once in it.
    BadHeader,
    /// There are more than 200,000 records after the header.
    TooManyRows,
    /// The row of this number, from 1, has another count of fields than the header.
    BadRow(u32),
    /// The row of this number has no integer in this column. Both are from 1, and the column is by
    /// the catalogue's order.
    BadField(u32, u8),
    /// There is no memory.
    Memory,
}

impl From<AllocError> for TableFault {
    ghost from_gives = { λ _ e. e ≡ Memory };

    fn from(_: AllocError) -> Self {
        TableFault::Memory
    }
}
