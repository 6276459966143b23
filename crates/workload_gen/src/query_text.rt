// The query.

ghost use Rattle.std.specs.Prelude.{◌≡◌, ◌-◌, ◌∷◌, ◌≤◌, map, codes, IfOk, OnOk};
ghost use Rattle.std.specs.List.{range_with_len};
ghost use Rattle.query_graph.specs.Queries.{column_lexemes, columns_lexemes, item_lexemes, comparison_lexemes, where_lexemes};
ghost use Rattle.spelling.specs.Lexemes.{Word, comma, joined_by};
ghost use Rattle.spelling.specs.Writing.{puts};
ghost use Rattle.workload_gen.specs.QueryText.{id_of, prev_of, item_of, link_of, query_text};

use crate::names::numbered;
use spelling::{Printer, Writer, print_joined, print_run};
use std::alloc::{AllocError, Global};

// The numbers that a table may have.
const NUMBERS: [usize; 8] = [1, 2, 3, 4, 5, 6, 7, 8];

// The numbers of so many tables.
fn numbers(size: usize) -> &'static [usize]
    requires { size ≤ 8 }
    ensures { result.now ≡ range_with_len 1 size }
{
    &NUMBERS[..size]
}

// Those but the first.
fn later_numbers(size: usize) -> &'static [usize]
    requires some { 1 ≤ size }
    requires few { size ≤ 8 }
    ensures { result.now ≡ range_with_len 2 (size - 1) }
{
    &NUMBERS[1..size]
}

#[tactic(auto, using(spelling::proofs::Laws::writing))]
fn print_id(alloc: Global, out: &mut Writer, number: usize) -> Result<(), AllocError>
    ensures { OnOk result (out.new ≡ puts out.old (column_lexemes (id_of number))) }
{
    let quantifier = numbered(alloc, b'q', number)?;
    out.word(quantifier.as_slice())?;
    out.symbol(b".")?;
    out.word(b"id")
}

#[tactic(auto, using(spelling::proofs::Laws::writing))]
fn print_prev(alloc: Global, out: &mut Writer, number: usize) -> Result<(), AllocError>
    ensures { OnOk result (out.new ≡ puts out.old (column_lexemes (prev_of number))) }
{
    let quantifier = numbered(alloc, b'q', number)?;
    out.word(quantifier.as_slice())?;
    out.symbol(b".")?;
    out.word(b"prev")
}

// Prints the columns that are selected.
#[derive(Drop)]
struct Ids {
    alloc: Global,
}

impl Printer<usize> for Ids {
    ghost lexemes = { λ _ number. column_lexemes (id_of number) };

    fn print(&self, out: &mut Writer, number: &usize) -> Result<(), AllocError> {
        print_id(self.alloc, out, *number)
    }
}

// Prints the quantifiers.
#[derive(Drop)]
struct Items {
    alloc: Global,
}

impl Printer<usize> for Items {
    ghost lexemes = { λ _ number. item_lexemes (item_of number) };

    #[tactic(auto, using(spelling::proofs::Laws::writing))]
    fn print(&self, out: &mut Writer, number: &usize) -> Result<(), AllocError> {
        let table = numbered(self.alloc, b't', *number)?;
        let quantifier = numbered(self.alloc, b'q', *number)?;
        out.word(table.as_slice())?;
        out.word(quantifier.as_slice())
    }
}

#[tactic(auto, using(spelling::proofs::Laws::writing))]
fn print_link(alloc: Global, out: &mut Writer, number: usize) -> Result<(), AllocError>
    ensures { OnOk result (out.new ≡ puts out.old (comparison_lexemes (link_of number))) }
{
    print_prev(alloc, out, number)?;
    out.symbol(b"=")?;
    print_id(alloc, out, number.saturating_sub(1))
}

// Prints the predicates behind the first.
#[derive(Drop)]
struct FurtherLinks {
    alloc: Global,
}

impl Printer<usize> for FurtherLinks {
    ghost lexemes = { λ _ number. Word (codes "and") ∷ comparison_lexemes (link_of number) };

    #[tactic(auto, using(spelling::proofs::Laws::writing))]
    fn print(&self, out: &mut Writer, number: &usize) -> Result<(), AllocError> {
        out.word(b"and")?;
        print_link(self.alloc, out, *number)
    }
}

// The predicates, one for each table but the first.
fn print_links(alloc: Global, out: &mut Writer, size: usize) -> Result<(), AllocError>
    requires some { 1 ≤ size }
    requires few { size ≤ 8 }
    ensures { OnOk result (out.new ≡ puts out.old
        (where_lexemes (map link_of (range_with_len 2 (size - 1))))) }
{
    let [second, further @ ..] = later_numbers(size) else {
        return Ok(());
    };
    out.word(b"where")?;
    print_link(alloc, out, *second)?;
    print_run(out, &FurtherLinks { alloc }, further)
}

// The columns that are selected, one of each table.
fn print_ids(alloc: Global, out: &mut Writer, size: usize) -> Result<(), AllocError>
    requires { size ≤ 8 }
    ensures { OnOk result (out.new
        ≡ puts out.old (columns_lexemes (map id_of (range_with_len 1 size)))) }
{
    print_joined(out, &Ids { alloc }, b",", numbers(size))
}

// The quantifiers, one of each table.
fn print_items(alloc: Global, out: &mut Writer, size: usize) -> Result<(), AllocError>
    requires { size ≤ 8 }
    ensures { OnOk result (out.new
        ≡ puts out.old (joined_by comma (map item_lexemes (map item_of (range_with_len 1 size))))) }
{
    print_joined(out, &Items { alloc }, b",", numbers(size))
}

/// The text of the query of so many tables, 1 to 8.
#[tactic(auto, using(spelling::proofs::Laws::writing))]
pub fn query_text(alloc: Global, size: usize) -> Result<Vec<u8>, AllocError>
    requires some { 1 ≤ size }
    requires few { size ≤ 8 }
    ensures { IfOk result (λ text. text.items ≡ query_text size) }
{
    let mut out = Writer::new(alloc);
    out.word(b"select")?;
    print_ids(alloc, &mut out, size)?;
    out.word(b"from")?;
    print_items(alloc, &mut out, size)?;
    print_links(alloc, &mut out, size)?;
    out.word(b"order")?;
    out.word(b"by")?;
    print_id(alloc, &mut out, size)?;
    out.end_statement()?;
    Ok(out.into_bytes())
}
