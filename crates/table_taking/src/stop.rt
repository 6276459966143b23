// Why the tables of a query aren't taken.
ghost use Rattle.std.specs.Prelude.{◌≡◌};
ghost use Rattle.table_taking.specs.declared.stop.Stop.TheVariants.{Memory};

use std::alloc::AllocError;

/// Why the tables of a query aren't taken. A stop carries its finished line, so that telling it
/// takes no memory.
#[derive(Drop)]
pub enum Stop {
    /// The shelf failed at the file of a table, which the line names.
    Unread(String),
    /// A table's file is too long, or its records have a fault, which the line tells.
    Refused(String),
    /// Memory was wanting.
    Memory,
}

impl From<AllocError> for Stop {
    ghost from_gives = { λ _ e. e ≡ Memory };

    fn from(_: AllocError) -> Self {
        Stop::Memory
    }
}
