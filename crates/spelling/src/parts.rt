// Printing lists of parts of statements.

ghost use Rattle.std.specs.Prelude.{◌≡◌, ◌∷◌, map, List, OnOk};
ghost use Rattle.std.specs.List.{flat_map};
ghost use Rattle.spelling.specs.Lexemes.{Lexeme, Symbol, joined_by, call};
ghost use Rattle.spelling.specs.Writing.{puts};

use crate::Writer;
use std::alloc::AllocError;

/// Prints parts of statements, each as a run of lexemes.
///
/// It is implemented by a type of the crate that prints them, and not by the types of the parts.
pub trait Printer<T> {
    ghost lexemes: { Self → T → List Lexeme };

    fn print(&self, out: &mut Writer, part: &T) -> Result<(), AllocError>
        ensures { OnOk result (out.new ≡ puts out.old (lexemes self.now part.now)) };
}

/// Writes the parts one after the other.
pub fn print_run<T, P: Printer<T>>(
    out: &mut Writer,
    printer: &P,
    parts: &[T],
) -> Result<(), AllocError>
    ensures { OnOk result (out.new ≡ puts out.old (flat_map (P.lexemes printer.now) parts.now)) }
{
    for part in parts {
        printer.print(out, part)?;
    }
    Ok(())
}

/// Writes the parts, each behind the symbol.
pub fn print_behind<T, P: Printer<T>>(
    out: &mut Writer,
    printer: &P,
    symbol: &[u8],
    parts: &[T],
) -> Result<(), AllocError>
    ensures { OnOk result (out.new ≡ puts out.old
        (flat_map (λ part. Symbol symbol.now ∷ P.lexemes printer.now part) parts.now)) }
{
    for part in parts {
        out.symbol(symbol)?;
        printer.print(out, part)?;
    }
    Ok(())
}

/// Writes the parts, with the symbol between two.
pub fn print_joined<T, P: Printer<T>>(
    out: &mut Writer,
    printer: &P,
    symbol: &[u8],
    parts: &[T],
) -> Result<(), AllocError>
    ensures { OnOk result (out.new ≡ puts out.old
        (joined_by (Symbol symbol.now) (map (P.lexemes printer.now) parts.now))) }
{
    let [first, later @ ..] = parts else {
        return Ok(());
    };
    printer.print(out, first)?;
    print_behind(out, printer, symbol, later)
}

/// Writes a word and the parts in brackets.
#[tactic(auto, using(crate::proofs::WritingLaws::writing))]
pub fn print_call<T, P: Printer<T>>(
    out: &mut Writer,
    printer: &P,
    word: &[u8],
    parts: &[T],
) -> Result<(), AllocError>
    ensures { OnOk result (out.new ≡ puts out.old
        (call word.now (map (P.lexemes printer.now) parts.now))) }
{
    out.word(word)?;
    out.symbol(b"(")?;
    print_joined(out, printer, b",", parts)?;
    out.symbol(b")")
}
