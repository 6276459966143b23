// Printing a STAR.

ghost use Rattle.std.specs.Prelude.{◌≡◌, OnOk};
ghost use Rattle.rule_grammar.specs.Rules.{parameter_lexemes, for_lexemes, when_lexemes, alternative_lexemes, star_lexemes};
ghost use Rattle.spelling.specs.Writing.{puts};

use crate::condition_print::{print_condition, print_range};
use crate::plan_print::print_plan;
use spelling::{Printer, Writer, print_call, print_joined, print_run};
use star_model::flavours::kind_word;
use star_model::rules::{Alternative, Condition, ForAll, Param, StarDef};
use std::alloc::AllocError;

// Prints the parts of STARs.
struct StarParts;

impl Printer<Param> for StarParts {
    ghost lexemes = { λ _ p. parameter_lexemes p };

    #[tactic(auto, using(spelling::proofs::Laws::writing))]
    fn print(&self, out: &mut Writer, param: &Param) -> Result<(), AllocError> {
        out.word(param.name.as_slice())?;
        out.word(kind_word(param.kind).as_bytes())
    }
}

impl Printer<ForAll> for StarParts {
    ghost lexemes = { λ _ f. for_lexemes f };

    #[tactic(auto, using(spelling::proofs::Laws::writing))]
    fn print(&self, out: &mut Writer, clause: &ForAll) -> Result<(), AllocError> {
        out.word(b"for")?;
        out.word(clause.name.as_slice())?;
        out.word(b"in")?;
        print_range(out, &clause.range)
    }
}

#[tactic(auto, using(spelling::proofs::Laws::writing))]
fn print_when(out: &mut Writer, condition: &Option<Condition>) -> Result<(), AllocError>
    ensures { OnOk result (out.new ≡ puts out.old (when_lexemes condition.now)) }
{
    match condition {
        None => Ok(()),
        Some(condition) => {
            out.word(b"when")?;
            print_condition(out, condition)
        }
    }
}

impl Printer<Alternative> for StarParts {
    ghost lexemes = { λ _ a. alternative_lexemes a };

    #[tactic(auto, using(spelling::proofs::Laws::writing))]
    fn print(&self, out: &mut Writer, alternative: &Alternative) -> Result<(), AllocError> {
        print_run(out, self, alternative.ranges.as_slice())?;
        print_when(out, &alternative.condition)?;
        out.word(b"give")?;
        print_plan(out, &alternative.body)
    }
}

/// Writes the statement that defines a STAR, without its end.
#[tactic(auto, using(spelling::proofs::Laws::writing))]
pub fn print_star(out: &mut Writer, star: &StarDef) -> Result<(), AllocError>
    ensures { OnOk result (out.new ≡ puts out.old (star_lexemes star.now)) }
{
    out.word(b"star")?;
    print_call(
        out,
        &StarParts,
        star.name.as_slice(),
        star.params.as_slice(),
    )?;
    out.symbol(b"=")?;
    print_joined(out, &StarParts, b"|", star.alternatives.as_slice())
}
