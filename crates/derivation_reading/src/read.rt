// Reading a derivation.
ghost use Rattle.std.specs.Prelude.{◌≤◌, length};
ghost use Rattle.sb_text.specs.Limits.{most_text_bytes};
ghost use Rattle.derivation_reading.specs.Faults.{ReadsDerivation};

use crate::DerivFault;
use crate::build::derivation_of;
use crate::heights::first_too_far;
use crate::preorder::read_nodes;
use sb_text::tokens;
use star_model::derivations::Deriv;
use std::alloc::Global;

/// The derivation that a text spells, or its first fault. Each kind of fault is judged over the
/// whole text before the next.
///
/// It takes no more of the stack for a deeper derivation, and makes none of more than 2,048 levels.
pub fn read_derivation(alloc: Global, source: &[u8]) -> Result<Deriv, DerivFault>
    requires { length source.now ≤ most_text_bytes }
    ensures { ReadsDerivation source.now result }
{
    let tokens = tokens(alloc, source)?;
    let nodes = read_nodes(alloc, source, tokens.as_slice())?;
    if let Some(node) = first_too_far(alloc, nodes.as_slice())? {
        return Err(DerivFault::TooTall(node));
    }
    Ok(derivation_of(alloc, nodes)?)
}
