// Reading a statement.
ghost use Rattle.std.specs.Prelude.{option_map};
ghost use Rattle.sb_text.specs.Statements.{part_of};
ghost use Rattle.spelling.specs.Cursors.{AreTokensOf, part_said};
ghost use Rattle.spelling.specs.Reading.{Reads};
ghost use Rattle.derivation_reading.specs.Nodes.{said};
ghost use Rattle.derivation_reading.specs.NodeReading.{Answers, NodeRead};
ghost use Rattle.derivation_reading.specs.StatementReading.{split_at, goal_at, reference_at, node_at};

use crate::chains::chain;
use crate::nodes::Node;
use crate::numbers::{counted_number, values};
use crate::sets::set;
use sb_text::Statement;
use spelling::{Cursor, Unread};
use star_model::flavours::flavour_of;
use star_model::lists::Name;
use star_model::plans::Goal;
use star_model::sets::{PredSet, QuantSet};
use std::alloc::Global;

// The split of a goal, where it has one.
#[tactic(auto, unfolding(crate::specs::StatementReading::split_at))]
fn split(cursor: &mut Cursor<'_>) -> Option<Option<(QuantSet, QuantSet)>>
    ensures { Reads (split_at cursor.old) result cursor.new }
{
    if cursor.the_word(b"split").is_none() {
        return Some(None);
    }
    let left = set::<QuantSet>(cursor)?;
    let right = set::<QuantSet>(cursor)?;
    Some(Some((left, right)))
}

#[tactic(auto, unfolding(crate::specs::StatementReading::goal_at))]
fn goal(cursor: &mut Cursor<'_>) -> Option<Node>
    ensures { Reads (goal_at cursor.old) (option_map said result) cursor.new }
{
    let tables = set::<QuantSet>(cursor)?;
    cursor.the_word(b"pushed")?;
    let pushed = set::<PredSet>(cursor)?;
    let split = split(cursor)?;
    Some(Node::Goal(Goal { tables, pushed }, split))
}

#[tactic(auto, unfolding(crate::specs::StatementReading::reference_at))]
fn reference(alloc: Global, cursor: &mut Cursor<'_>) -> Result<Node, Unread>
    ensures { Answers (reference_at cursor.old) result cursor.new }
{
    let star = cursor.word().ok_or(Unread::Strange)?;
    let alternative = counted_number(cursor).ok_or(Unread::Strange)?;
    let values = values(cursor).ok_or(Unread::Strange)?;
    let star = Name::from_slice(alloc, star)?;
    Ok(Node::Reference {
        star,
        alternative,
        values,
    })
}

// The node that a statement says whose lexemes begin here.
#[tactic(auto, unfolding(crate::specs::StatementReading::node_at))]
fn front(alloc: Global, cursor: &mut Cursor<'_>) -> Result<Node, Unread>
    ensures { Answers (node_at cursor.old) result cursor.new }
{
    match cursor.word().ok_or(Unread::Strange)? {
        b"glue" => Ok(Node::Glue(chain(cursor).ok_or(Unread::Strange)?)),
        b"goal" => Ok(goal(cursor).ok_or(Unread::Strange)?),
        b"ref" => reference(alloc, cursor),
        word => Ok(Node::Operator(flavour_of(word).ok_or(Unread::Strange)?)),
    }
}

/// What a statement says of its node, from its tokens.
pub fn read_node(alloc: Global, source: &[u8], statement: &Statement<'_>) -> Result<Node, Unread>
    requires { AreTokensOf source.now statement.now.tokens.now }
    ensures { NodeRead (part_said source.now (part_of statement.now)) result }
{
    if !statement.ended {
        return Err(Unread::Strange);
    }
    let mut cursor = Cursor::new(source, statement.tokens);
    let node = front(alloc, &mut cursor)?;
    if cursor.is_done() {
        Ok(node)
    } else {
        Err(Unread::Strange)
    }
}
