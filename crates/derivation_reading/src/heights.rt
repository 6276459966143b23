// Nodes that stand too far down.
ghost use Rattle.std.specs.Prelude.{◌≤◌, IfOk, MatchOption, [], ◌∷◌, length, map};
ghost use Rattle.sb_text.specs.Limits.{most_text_bytes};
ghost use Rattle.spelling.specs.Firsts.{FirstAt, NoneHas};
ghost use Rattle.derivation_reading.specs.Nodes.{said};
ghost use Rattle.derivation_reading.specs.Ancestors.{IsTooFar};
ghost use Rattle.derivation_reading.specs.OpenPlaces.{ancestors_of};

use crate::nodes::Node;
use crate::places::inputs;
use sqlite_items::Items;
use std::alloc::{AllocError, Global};

/// The number, from 1, of the first node with more than 2,047 ancestors, where these are the nodes
/// of a derivation in preorder.
pub fn first_too_far(alloc: Global, nodes: &[Node]) -> Result<Option<u32>, AllocError>
    requires { length nodes.now ≤ most_text_bytes }
    ensures { IfOk result (λ found. MatchOption found
        (NoneHas IsTooFar (ancestors_of (0 ∷ []) (map said nodes.now)))
        (FirstAt IsTooFar (ancestors_of (0 ∷ []) (map said nodes.now)))) }
{
    // How many ancestors a node has in each place that is left to fill. The next place is the last
    // one.
    let mut places = Items::new(alloc);
    places.push(0u32)?;
    let mut number = 1u32;
    for node in nodes {
        let Some(ancestors) = places.pop() else {
            return Ok(None);
        };
        if 2047 < ancestors {
            return Ok(Some(number));
        }
        for input in 0..inputs(node) {
            places.push(ancestors + 1)?;
        }
        number += 1;
    }
    Ok(None)
}
