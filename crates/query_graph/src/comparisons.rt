// Reading the comparisons behind `where`.
ghost use Rattle.std.specs.Prelude.{map};
ghost use Rattle.spelling.specs.Reading.{Reads};
ghost use Rattle.query_graph.specs.Words.{said_side, said_comparison};
ghost use Rattle.query_graph.specs.StatementReading.{Answers, cmp_at, side_at, comparison_at, comparisons_at};

use crate::columns::column;
use crate::words::{ComparisonWords, ConstantWords, SideWords};
use spelling::{Cursor, Unread, text_bytes};
use star_model::lists::{Bytes, List};
use star_model::query::Cmp;
use std::alloc::Global;

#[tactic(auto, unfolding(crate::specs::StatementReading::cmp_at))]
fn cmp(cursor: &mut Cursor<'_>) -> Option<Cmp>
    ensures { Reads (cmp_at cursor.old) result cursor.new }
{
    if cursor.the_symbol(b"=").is_some() {
        Some(Cmp::Eq)
    } else if cursor.the_symbol(b"<>").is_some() {
        Some(Cmp::Ne)
    } else if cursor.the_symbol(b"<").is_some() {
        Some(Cmp::Lt)
    } else if cursor.the_symbol(b"<=").is_some() {
        Some(Cmp::Le)
    } else if cursor.the_symbol(b">").is_some() {
        Some(Cmp::Gt)
    } else if cursor.the_symbol(b">=").is_some() {
        Some(Cmp::Ge)
    } else {
        None
    }
}

#[tactic(auto, unfolding(crate::specs::StatementReading::side_at, crate::specs::StatementReading::negative_at, crate::specs::StatementReading::column_side_at))]
fn side(alloc: Global, cursor: &mut Cursor<'_>) -> Result<SideWords, Unread>
    ensures { Answers said_side (side_at cursor.old) result cursor.new }
{
    if cursor.the_symbol(b"-").is_some() {
        let number = cursor.number().ok_or(Unread::Strange)?;
        return Ok(SideWords::Constant(ConstantWords::Negative(number)));
    }
    if let Some(number) = cursor.number() {
        return Ok(SideWords::Constant(ConstantWords::Whole(number)));
    }
    if let Some(written) = cursor.text() {
        let bytes = text_bytes(alloc, written)?;
        return Ok(SideWords::Constant(ConstantWords::Quoted(Bytes::from_vec(bytes))));
    }
    let column = column(alloc, cursor)?;
    Ok(SideWords::Column(column))
}

#[tactic(auto, unfolding(crate::specs::StatementReading::comparison_at))]
fn comparison(alloc: Global, cursor: &mut Cursor<'_>) -> Result<ComparisonWords, Unread>
    ensures { Answers said_comparison (comparison_at cursor.old) result cursor.new }
{
    let left = column(alloc, cursor)?;
    let cmp = cmp(cursor).ok_or(Unread::Strange)?;
    let right = side(alloc, cursor)?;
    Ok(ComparisonWords { left, cmp, right })
}

/// Comparisons with `and` between.
#[tactic(auto, unfolding(crate::specs::StatementReading::comparisons_at))]
pub fn comparisons(alloc: Global, cursor: &mut Cursor<'_>) -> Result<List<ComparisonWords>, Unread>
    ensures { Answers (λ comparisons. map said_comparison comparisons) (comparisons_at cursor.old)
        result cursor.new }
{
    let mut comparisons = List::new(alloc);
    loop {
        let comparison = comparison(alloc, cursor)?;
        comparisons.push(comparison)?;
        if cursor.the_word(b"and").is_none() {
            return Ok(comparisons);
        }
    }
}
