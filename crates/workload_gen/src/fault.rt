// Why there is no workload.
ghost use Rattle.std.specs.Prelude.{◌≡◌};
ghost use Rattle.workload_gen.specs.declared.fault.GenFault.TheVariants.{Memory};

use std::alloc::AllocError;

/// Why there is no workload.
#[derive(Clone, Copy, Debug, PartialEq, Eq)]
pub enum GenFault {
    /// The size isn't 1 to 8.
    Size,
    /// There is no memory.
    Memory,
}

impl From<AllocError> for GenFault {
    ghost from_gives = { λ _ e. e ≡ Memory };

    fn from(_: AllocError) -> Self {
        GenFault::Memory
    }
}
