// Printing a rule file.

ghost use Rattle.std.specs.Prelude.{◌≡◌, true, nat_eq, ◌∷◌, ◌++◌, map, codes, IfOk, OnOk};
ghost use Rattle.star_model.specs.WellFormed.{differ};
ghost use Rattle.star_model.specs.WellFormedRules.{statement_numbers};
ghost use Rattle.rule_grammar.specs.Rules.{OfSelect, OfFormula, OfStar, number_of, version_statements, select_def_lexemes, formula_def_lexemes, definitions, canonical};
ghost use Rattle.cost_formula.specs.Formulas.{formula_lexemes};
ghost use Rattle.spelling.specs.Lexemes.{Word};
ghost use Rattle.spelling.specs.Writing.{puts, lines};
ghost use Rattle.rule_printing.specs.Printing.{definition_of, statement_lexemes};

use crate::star_print::print_star;
use cost_formula::write_formula;
use spelling::Writer;
use star_model::flavours::{class_word, flavour_word, which_word};
use star_model::rules::{FormulaDef, RuleFile, SelectDef, StarDef};
use std::alloc::{AllocError, Global};

/// A statement that defines something.
#[derive(Clone, Copy)]
pub enum Statement<'a> {
    Select(&'a SelectDef),
    Formula(&'a FormulaDef),
    Star(&'a StarDef),
}

impl Statement<'_> {
    fn number(&self) -> u32
        ensures { result ≡ number_of (definition_of self.now) }
    {
        match self {
            Statement::Select(select) => select.statement,
            Statement::Formula(formula) => formula.statement,
            Statement::Star(star) => star.statement,
        }
    }
}

fn push_selects<'a>(
    all: &mut Vec<Statement<'a>>,
    selects: &'a [SelectDef],
) -> Result<(), AllocError>
    ensures { OnOk result (map definition_of all.new.items
        ≡ map definition_of all.old.items ++ map OfSelect selects.now) }
{
    for select in selects {
        all.push(Statement::Select(select))?;
    }
    Ok(())
}

fn push_formulas<'a>(
    all: &mut Vec<Statement<'a>>,
    formulas: &'a [FormulaDef],
) -> Result<(), AllocError>
    ensures { OnOk result (map definition_of all.new.items
        ≡ map definition_of all.old.items ++ map OfFormula formulas.now) }
{
    for formula in formulas {
        all.push(Statement::Formula(formula))?;
    }
    Ok(())
}

fn push_stars<'a>(all: &mut Vec<Statement<'a>>, stars: &'a [StarDef]) -> Result<(), AllocError>
    ensures { OnOk result (map definition_of all.new.items
        ≡ map definition_of all.old.items ++ map OfStar stars.now) }
{
    for star in stars {
        all.push(Statement::Star(star))?;
    }
    Ok(())
}

// The statements that define something, by their numbers.
fn statements_in_order(alloc: Global, rules: &RuleFile) -> Result<Vec<Statement<'_>>, AllocError>
    requires { differ nat_eq (statement_numbers rules.now) ≡ true }
    ensures { IfOk result (λ all. map definition_of all.items
        ≡ definitions rules.now.selects rules.now.formulas rules.now.stars) }
{
    let mut all = Vec::new(alloc);
    push_selects(&mut all, rules.selects.as_slice())?;
    push_formulas(&mut all, rules.formulas.as_slice())?;
    push_stars(&mut all, rules.stars.as_slice())?;
    all.sort_unstable_by_key(Statement::number);
    Ok(all)
}

// The two formulas of a selectivity.
#[tactic(auto, using(spelling::proofs::Laws::writing))]
fn print_num_and_den(out: &mut Writer, select: &SelectDef) -> Result<(), AllocError>
    ensures { OnOk result (out.new ≡ puts out.old
        (formula_lexemes select.now.num ++ Word (codes "per") ∷ formula_lexemes select.now.den)) }
{
    write_formula(out, &select.num)?;
    out.word(b"per")?;
    write_formula(out, &select.den)
}

#[tactic(auto, using(spelling::proofs::Laws::writing))]
fn print_select_def(out: &mut Writer, select: &SelectDef) -> Result<(), AllocError>
    ensures { OnOk result (out.new ≡ puts out.old (select_def_lexemes select.now)) }
{
    out.word(b"selectivity")?;
    out.word(class_word(select.class).as_bytes())?;
    out.symbol(b"=")?;
    print_num_and_den(out, select)
}

#[tactic(auto, using(spelling::proofs::Laws::writing))]
fn print_formula_def(out: &mut Writer, formula: &FormulaDef) -> Result<(), AllocError>
    ensures { OnOk result (out.new ≡ puts out.old (formula_def_lexemes formula.now)) }
{
    out.word(which_word(formula.which).as_bytes())?;
    out.word(flavour_word(formula.flavour).as_bytes())?;
    out.symbol(b"=")?;
    write_formula(out, &formula.formula)
}

fn print_statement(out: &mut Writer, statement: &Statement<'_>) -> Result<(), AllocError>
    ensures { OnOk result (out.new ≡ puts out.old (statement_lexemes statement.now)) }
{
    match statement {
        Statement::Select(select) => print_select_def(out, select),
        Statement::Formula(formula) => print_formula_def(out, formula),
        Statement::Star(star) => print_star(out, star),
    }
}

// The statement that says version 2.
#[tactic(auto, using(spelling::proofs::Laws::writing))]
fn print_version(out: &mut Writer, version: u8) -> Result<(), AllocError>
    ensures { OnOk result (out.new ≡ lines out.old (version_statements version)) }
{
    if version == 2 {
        out.word(b"version")?;
        out.number(2)?;
        out.end_statement()?;
    }
    Ok(())
}

fn print_statements(out: &mut Writer, statements: &[Statement<'_>]) -> Result<(), AllocError>
    ensures { OnOk result (out.new ≡ lines out.old (map statement_lexemes statements.now)) }
{
    for statement in statements {
        print_statement(out, statement)?;
        out.end_statement()?;
    }
    Ok(())
}

/// The text that spells the rule file, in canonical layout: its statements in the order of their
/// numbers, each on a line of its own, and before them the one that says version 2.
///
/// Two statements of one number have no order, so the numbers have to differ.
pub fn print_rules(alloc: Global, rules: &RuleFile) -> Result<Vec<u8>, AllocError>
    requires { differ nat_eq (statement_numbers rules.now) ≡ true }
    ensures { IfOk result (λ text. text.items ≡ canonical rules.now) }
{
    let statements = statements_in_order(alloc, rules)?;
    let mut out = Writer::new(alloc);
    print_version(&mut out, rules.version)?;
    print_statements(&mut out, statements.as_slice())?;
    Ok(out.into_bytes())
}
