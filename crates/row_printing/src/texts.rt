// The text of values.

ghost use Rattle.std.specs.Prelude.{◌≡◌, ◌∷◌, [], ◌++◌, OnOk};
ghost use Rattle.row_store.specs.Cells.{value_of_cell};
ghost use Rattle.sb_text.specs.Forms.{doubled, quoted};
ghost use Rattle.row_printing.specs.RowLines.{value_text};

use itoa::Buffer;
use row_store::Cell;
use std::alloc::AllocError;

// Adds the byte, twice if it is a quote.
fn push_byte(text: &mut Vec<u8>, byte: u8) -> Result<(), AllocError>
    ensures { OnOk result (text.new.items ≡ text.old.items ++ doubled (byte ∷ [])) }
{
    if byte == b'\'' {
        text.push(b'\'')?;
    }
    text.push(byte)?;
    Ok(())
}

// Adds the bytes, with each quote doubled.
fn push_doubled(text: &mut Vec<u8>, bytes: &[u8]) -> Result<(), AllocError>
    ensures { OnOk result (text.new.items ≡ text.old.items ++ doubled bytes.now) }
{
    for byte in bytes {
        push_byte(text, *byte)?;
    }
    Ok(())
}

// Adds the bytes between quotes.
fn push_quoted(text: &mut Vec<u8>, bytes: &[u8]) -> Result<(), AllocError>
    ensures { OnOk result (text.new.items ≡ text.old.items ++ quoted bytes.now) }
{
    text.push(b'\'')?;
    push_doubled(text, bytes)?;
    text.push(b'\'')?;
    Ok(())
}

/// Adds the text of a value.
pub(crate) fn push_value(text: &mut Vec<u8>, cell: Cell<'_>) -> Result<(), AllocError>
    ensures { OnOk result (text.new.items ≡ text.old.items
        ++ value_text (value_of_cell cell.entry)) }
{
    match cell {
        Cell::Int(number) => text.extend_from_slice(Buffer::new().format(number).as_bytes()),
        Cell::Text(bytes) => push_quoted(text, bytes),
    }
}
