// The line of a file that can't be read.
ghost use Rattle.std.specs.Prelude.{◌≡◌, IfOk, string_bytes};
ghost use Rattle.table_taking.specs.Lines.{cannot_read};

use std::alloc::{AllocError, Global};

/// The line that tells that the file of this name can't be read.
pub fn unread_line(alloc: Global, name: &str) -> Result<String, AllocError>
    ensures { IfOk result (λ line. string_bytes line ≡ cannot_read name.now) }
{
    format!(in alloc; "cannot read {name}\n")
}
