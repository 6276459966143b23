// Reading all statements of a text.
ghost use Rattle.std.specs.Prelude.{◌≤◌, length};
ghost use Rattle.sb_text.specs.Limits.{most_text_bytes};
ghost use Rattle.sb_text.specs.Refusal.{AreTokens};
ghost use Rattle.derivation_reading.specs.Preorder.{NodesRead};

use crate::DerivFault;
use crate::nodes::Node;
use crate::places::Places;
use crate::statement::read_node;
use sb_text::{Token, statements};
use spelling::Unread;
use sqlite_items::Items;
use std::alloc::Global;

/// The nodes that the statements of a text say, which are those of a derivation in preorder. The
/// answer is a fault of the kind
/// `Syntax` or `Memory` otherwise.
pub fn read_nodes(alloc: Global, source: &[u8], tokens: &[Token]) -> Result<Items<Node>, DerivFault>
    requires size { length source.now ≤ most_text_bytes }
    requires tokens { AreTokens source.now tokens.now }
    ensures { NodesRead source.now result }
{
    let mut nodes = Items::new(alloc);
    let mut places = Places::whole();
    let mut number = 1u32;
    for statement in statements(tokens) {
        let node = match read_node(alloc, source, &statement) {
            Ok(node) => node,
            Err(Unread::Strange) => return Err(DerivFault::Syntax(number)),
            Err(Unread::Memory) => return Err(DerivFault::Memory),
        };
        if !places.takes(&node) {
            return Err(DerivFault::Syntax(number));
        }
        places = places.behind(&node);
        nodes.push(node)?;
        number += 1;
    }
    if places.left == 0 {
        Ok(nodes)
    } else {
        Err(DerivFault::Syntax(number))
    }
}
