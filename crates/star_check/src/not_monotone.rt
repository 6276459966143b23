// Formulas that fail the monotone check.
ghost use Rattle.std.specs.Prelude.{◌<◌, ◌^◌, length};
ghost use Rattle.star_model.specs.Monotone.{nodes};
ghost use Rattle.star_model.specs.Every.{Every};
ghost use Rattle.star_check.specs.Findings.{IsFirstFound, IsOwn};
ghost use Rattle.star_check.specs.Offences.{HasFewNodes, ShowsOffence};

use crate::found::{Found, earlier_found};
use monotone_check::check;
use star_model::rules::{Flavour, FormulaDef, Which};

/// A formula that fails, and the number of the first node that offends.
#[derive(Clone, Copy, Debug)]
pub struct Offence {
    pub flavour: Flavour,
    pub which: Which,
    pub node: u32,
}

#[tactic(auto, using(star_model::proofs::Laws::passes_where))]
fn offence_of(definition: &FormulaDef) -> Option<Found<Offence>>
    requires { length (nodes definition.now.formula) < 2 ^ 32 }
    ensures { IsOwn ShowsOffence definition.now result }
{
    match check(&definition.formula) {
        Ok(()) => None,
        Err(fault) => Some(Found {
            statement: definition.statement,
            what: Offence {
                flavour: definition.flavour,
                which: definition.which,
                node: fault.node,
            },
        }),
    }
}

/// The formula of the first statement that fails.
pub fn first_offence(formulas: &[FormulaDef]) -> Option<Found<Offence>>
    requires { Every HasFewNodes formulas.now }
    ensures { IsFirstFound ShowsOffence formulas.now result }
{
    let mut first = None;
    for definition in formulas {
        first = earlier_found(first, offence_of(definition));
    }
    first
}
