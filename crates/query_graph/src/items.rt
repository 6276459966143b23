// Reading the items behind `from`: tables, each under a name of its own or the table's.
ghost use Rattle.std.specs.Prelude.{map};
ghost use Rattle.query_graph.specs.Words.{said_item};
ghost use Rattle.query_graph.specs.StatementReading.{Answers, own_name_at, item_at, items_at};

use crate::columns::{free_name, is_reserved};
use crate::words::ItemWords;
use spelling::{Cursor, Unread};
use star_model::lists::{List, Name};
use std::alloc::Global;

// The own name of an item, where it is given one.
#[tactic(auto, unfolding(crate::specs::StatementReading::own_name_at, crate::specs::StatementReading::free_word))]
fn own_name(alloc: Global, cursor: &mut Cursor<'_>) -> Result<Option<Name>, Unread>
    ensures { Answers (λ name. name) (own_name_at cursor.old) result cursor.new }
{
    match cursor.next_word() {
        Some(word) if !is_reserved(word) => Ok(Some(free_name(alloc, cursor)?)),
        _ => Ok(None),
    }
}

#[tactic(auto, unfolding(crate::specs::StatementReading::item_at))]
fn item(alloc: Global, cursor: &mut Cursor<'_>) -> Result<ItemWords, Unread>
    ensures { Answers said_item (item_at cursor.old) result cursor.new }
{
    let table = free_name(alloc, cursor)?;
    let name = own_name(alloc, cursor)?;
    Ok(ItemWords { table, name })
}

/// Items with commas between.
#[tactic(auto, unfolding(crate::specs::StatementReading::items_at))]
pub fn items(alloc: Global, cursor: &mut Cursor<'_>) -> Result<List<ItemWords>, Unread>
    ensures { Answers (λ items. map said_item items) (items_at cursor.old) result cursor.new }
{
    let mut items = List::new(alloc);
    loop {
        let item = item(alloc, cursor)?;
        items.push(item)?;
        if cursor.the_symbol(b",").is_none() {
            return Ok(items);
        }
    }
}
