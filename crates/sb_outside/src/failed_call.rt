// The last call of a shelf that failed.
ghost use Rattle.std.specs.Prelude.{◌≡◌, IfOk};

use std::alloc::{AllocError, Global};
use std::marker::Model;

/// What a call of a shelf asked for: whether records, and the name of the file.
#[derive(Drop)]
pub struct FailedCall {
    records: bool,
    name: String,
}

impl Model for FailedCall {
    ghost use Rattle.std.specs.Prelude.{Bool, List, ℕ, string_bytes};

    ghost Value = { Bool × List ℕ };

    ghost view = { λ c. (c.records, string_bytes c.name) };
}

impl FailedCall {
    /// A call for a file of this name, with a copy of the name.
    pub fn new(alloc: Global, records: bool, name: &str) -> Result<FailedCall, AllocError>
        ensures { IfOk result (λ call. call ≡ (records, name.now)) }
    {
        let name = String::from_str(alloc, name)?;
        Ok(FailedCall { records, name })
    }

    /// Whether it was for records, and not for bytes.
    pub fn is_records(&self) -> bool
        ensures { result ≡ self.now.0 }
    {
        self.records
    }

    /// The name that was asked for.
    pub fn name(&self) -> &str
        ensures { result.now ≡ self.now.1 }
    {
        self.name.as_str()
    }
}
