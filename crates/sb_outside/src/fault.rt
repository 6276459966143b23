// What a shelf and a sink answer where they give nothing.
ghost use Rattle.std.specs.Prelude.{◌≡◌};
ghost use Rattle.sb_outside.specs.declared.fault.RecordsFault.TheVariants as records;
ghost use Rattle.sb_outside.specs.declared.fault.ShelfFault.TheVariants.{Memory};

use std::alloc::AllocError;

/// Why a shelf gives no file.
#[derive(Clone, Copy, Debug, PartialEq, Eq)]
pub enum ShelfFault {
    /// The file can't be read as asked: it is missing, say, or the device fails.
    Failed,
    /// The file has more bytes than were asked for.
    TooLong,
    /// There is no memory for it.
    Memory,
}

impl From<AllocError> for ShelfFault {
    ghost from_gives = { λ _ e. e ≡ Memory };

    fn from(_: AllocError) -> Self {
        ShelfFault::Memory
    }
}

/// Why bytes give no records.
#[derive(Clone, Copy, Debug, PartialEq, Eq)]
pub enum RecordsFault {
    /// `csv` refuses them, and not for want of memory. No bytes are known that it refuses.
    Refused,
    /// There is no memory for them.
    Memory,
}

impl From<AllocError> for RecordsFault {
    ghost from_gives = { λ _ e. e ≡ records.Memory };

    fn from(_: AllocError) -> Self {
        RecordsFault::Memory
    }
}

impl From<RecordsFault> for ShelfFault {
    ghost use Rattle.std.specs.Prelude.{◌≡◌};
    ghost use Rattle.sb_outside.specs.Faults.{shelf_fault_of};

    ghost from_gives = { λ fault e. e ≡ shelf_fault_of fault };

    fn from(fault: RecordsFault) -> Self {
        match fault {
            RecordsFault::Refused => ShelfFault::Failed,
            RecordsFault::Memory => ShelfFault::Memory,
        }
    }
}

/// Why a sink doesn't take a piece.
#[derive(Clone, Copy, Debug, PartialEq, Eq)]
pub enum SinkFault {
    /// A prefix of the piece was taken, maybe none of it.
    Failed,
}
