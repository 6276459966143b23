// Formulas from their texts.

ghost use Rattle.std.specs.Prelude.{◌<◌, ◌^◌, length, IfOk};
ghost use Rattle.star_model.specs.Monotone.{nodes};

use cost_formula::{eval, print_formula, read_formula};
use monotone_check::{MonoFault, check};
use sb_text::tokens;
use star_model::formula::{Formula, Vars};
use star_model::num::Num;
use std::alloc::{AllocError, Global};

// The greatest length of a text in bytes.
const LONGEST: usize = 1_048_576;

// The formula that a text spells. A text that spells none is an error here, since no row has one.
#[tactic(auto, using(crate::proofs::Read::reads))]
fn read(alloc: Global, text: &str) -> Result<Formula, AllocError>
    ensures { IfOk result (λ f. length (nodes f) < 2 ^ 32) }
{
    let source = text.as_bytes();
    if source.len() > LONGEST {
        return Err(AllocError);
    }
    let Ok(tokens) = tokens(alloc, source) else {
        return Err(AllocError);
    };
    match read_formula(alloc, tokens.as_slice(), source)? {
        Some(formula) => Ok(formula),
        None => Err(AllocError),
    }
}

/// The value of a formula where each variable but `one` is 0.
pub fn value(alloc: Global, text: &str) -> Result<String, AllocError> {
    let formula = read(alloc, text)?;
    let zero = Num::cut(0);
    let vars = Vars {
        cost1: zero,
        rescan1: zero,
        card1: zero,
        width1: zero,
        cost2: zero,
        rescan2: zero,
        card2: zero,
        width2: zero,
        card: zero,
        width: zero,
        rows: zero,
        pages: zero,
        preds: zero,
        cpu: zero,
        net: zero,
        distinct1: zero,
        rows1: zero,
        distinct2: zero,
        rows2: zero,
    };
    let value = eval(&formula, &vars).get();
    format!(in alloc; "{value}")
}

/// The canonical text of a formula.
pub fn canonical(alloc: Global, text: &str) -> Result<String, AllocError> {
    let formula = read(alloc, text)?;
    let printed = print_formula(alloc, &formula)?;
    String::from_utf8_lossy(alloc, printed.as_slice())
}

/// `passes`, or the number of the first node that offends.
pub fn offence(alloc: Global, text: &str) -> Result<String, AllocError> {
    let formula = read(alloc, text)?;
    match check(&formula) {
        Ok(()) => String::from_str(alloc, "passes"),
        Err(MonoFault { node }) => format!(in alloc; "{node}"),
    }
}
