// The lines that tell why a table isn't taken.
ghost use Rattle.std.specs.Prelude.{◌≡◌, IfOk, Some, string_bytes};
ghost use Rattle.table_taking.specs.Lines.{said_of, bad_row, bad_field, fault_line, long_line};

use row_store::TableFault;
use std::alloc::{AllocError, Global};

fn said_of(alloc: Global, name: &str, said: &str) -> Result<String, AllocError>
    ensures { IfOk result (λ line. string_bytes line ≡ said_of name.now said.now) }
{
    let mut line = format!(in alloc; "table {name}: ")?;
    line.push_str(said)?;
    line.push_str("\n")?;
    Ok(line)
}

fn bad_row(alloc: Global, row: u32) -> Result<String, AllocError>
    ensures { IfOk result (λ said. string_bytes said ≡ bad_row row) }
{
    format!(in alloc; "row {row} has another length")
}

fn bad_field(alloc: Global, row: u32, column: u8) -> Result<String, AllocError>
    ensures { IfOk result (λ said. string_bytes said ≡ bad_field row column) }
{
    let mut said = format!(in alloc; "row {row} column {column}")?;
    said.push_str(" is no integer")?;
    Ok(said)
}

// The line of a fault of the records of the table of this name. Want of memory is told as itself.
pub fn fault_line(alloc: Global, name: &str, fault: TableFault) -> Result<String, AllocError>
    ensures { IfOk result (λ line. fault_line name.now fault ≡ Some (string_bytes line)) }
{
    match fault {
        TableFault::BadHeader => said_of(alloc, name, "bad header"),
        TableFault::TooManyRows => said_of(alloc, name, "more than 200000 rows"),
        TableFault::BadRow(row) => said_of(alloc, name, bad_row(alloc, row)?.as_str()),
        TableFault::BadField(row, column) => {
            said_of(alloc, name, bad_field(alloc, row, column)?.as_str())
        }
        TableFault::Memory => Err(AllocError),
    }
}

// The line of a file of too many bytes, of the table of this name.
pub fn long_line(alloc: Global, name: &str) -> Result<String, AllocError>
    ensures { IfOk result (λ line. string_bytes line ≡ long_line name.now) }
{
    said_of(alloc, name, "longer than 67108864 bytes")
}
