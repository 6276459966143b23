// Limits that a definition goes beyond.
ghost use Rattle.std.specs.Prelude.{◌≡◌, ◌<◌, ◌^◌, nat_le, length};
ghost use Rattle.std.specs.List.{list_any};
ghost use Rattle.star_model.specs.Monotone.{nodes};
ghost use Rattle.spelling.specs.Cursors.{AreTokensOf};
ghost use Rattle.spelling.specs.Lexemes.{lexemes_of};
ghost use Rattle.star_model.specs.WellFormedRules.{nesting};
ghost use Rattle.star_syntax.specs.LimitTests.{has_many_ranges, is_deep, is_large, star_limit, formula_limit, select_limit, limit_beyond};
ghost use Rattle.star_syntax.specs.Definitions.{defined, HasFewNodes};

use crate::definition::Definition;
use crate::lexeme_limits::{has_great_number, has_long_word};
use sb_text::Token;
use star_model::faults::LimitKind;
use star_model::formula::Formula;
use star_model::rules::{Alternative, FormulaDef, PlanExpr, SelectDef, StarDef};

const MOST_PARAMS: usize = 8;

const MOST_ALTERNATIVES: usize = 16;

const MOST_RANGES: usize = 2;

const MOST_STARS: usize = 64;

const DEEPEST_BODY: usize = 8;

const MOST_NODES: usize = 256;

// Whether at most so many operators, references and calls of Glue stand inside one another.
fn nests_within(plan: &PlanExpr, depth: usize) -> bool
    ensures { result ≡ nat_le (nesting plan.now) depth }
{
    let Some(inside) = depth.checked_sub(1) else {
        return false;
    };
    match plan {
        PlanExpr::Reference { star: _, args: _ } => true,
        PlanExpr::Glue {
            stream: _,
            preds: _,
        } => true,
        PlanExpr::Leaf {
            flavour: _,
            args: _,
        } => true,
        PlanExpr::Unary {
            flavour: _,
            args: _,
            input,
        } => nests_within(input.get(), inside),
        PlanExpr::Binary {
            flavour: _,
            args: _,
            left,
            right,
        } => nests_within(left.get(), inside) && nests_within(right.get(), inside),
    }
}

// How many nodes the formula has.
#[tactic(auto, using(star_model::specs::NodeCounts::node_counts))]
fn count_nodes(formula: &Formula) -> usize
    requires { length (nodes formula.now) < 2 ^ 64 }
    ensures { result ≡ length (nodes formula.now) }
{
    match formula {
        Formula::Number(_) | Formula::Variable(_) => 1,
        Formula::Add(a, b)
        | Formula::Sub(a, b)
        | Formula::Mul(a, b)
        | Formula::Div(a, b)
        | Formula::Min(a, b)
        | Formula::Max(a, b) => 1 + count_nodes(a.get()) + count_nodes(b.get()),
        Formula::If {
            test: _,
            x,
            y,
            yes,
            no,
        } => {
            let compared = count_nodes(x.get()) + count_nodes(y.get());
            1 + compared + count_nodes(yes.get()) + count_nodes(no.get())
        }
    }
}

fn has_many_ranges(alternative: &Alternative) -> bool
    ensures { result ≡ has_many_ranges alternative.now }
{
    alternative.ranges.len() > MOST_RANGES
}

fn is_deep(alternative: &Alternative) -> bool
    ensures { result ≡ is_deep alternative.now }
{
    !nests_within(&alternative.body, DEEPEST_BODY)
}

fn some_has_many_ranges(alternatives: &[Alternative]) -> bool
    ensures { result ≡ list_any has_many_ranges alternatives.now }
{
    alternatives.iter().any(has_many_ranges)
}

fn some_is_deep(alternatives: &[Alternative]) -> bool
    ensures { result ≡ list_any is_deep alternatives.now }
{
    alternatives.iter().any(is_deep)
}

fn star_limit(stars: usize, star: &StarDef) -> Option<LimitKind>
    ensures { result ≡ star_limit stars star.now }
{
    let alternatives = star.alternatives.as_slice();
    if star.params.len() > MOST_PARAMS {
        Some(LimitKind::Params)
    } else if alternatives.len() > MOST_ALTERNATIVES {
        Some(LimitKind::Alternatives)
    } else if some_has_many_ranges(alternatives) {
        Some(LimitKind::ForAlls)
    } else if stars >= MOST_STARS {
        Some(LimitKind::Stars)
    } else if some_is_deep(alternatives) {
        Some(LimitKind::Depth)
    } else {
        None
    }
}

fn is_large(formula: &Formula) -> bool
    requires { length (nodes formula.now) < 2 ^ 64 }
    ensures { result ≡ is_large formula.now }
{
    count_nodes(formula) > MOST_NODES
}

fn formula_limit(definition: &FormulaDef) -> Option<LimitKind>
    requires { length (nodes definition.now.formula) < 2 ^ 64 }
    ensures { result ≡ formula_limit definition.now }
{
    if is_large(&definition.formula) {
        Some(LimitKind::Formula)
    } else {
        None
    }
}

fn select_limit(definition: &SelectDef) -> Option<LimitKind>
    requires num { length (nodes definition.now.num) < 2 ^ 64 }
    requires den { length (nodes definition.now.den) < 2 ^ 64 }
    ensures { result ≡ select_limit definition.now }
{
    if is_large(&definition.num) || is_large(&definition.den) {
        Some(LimitKind::Formula)
    } else {
        None
    }
}

/// The first limit that the statement of these tokens goes beyond, behind so many STARs.
pub fn limit_beyond(
    source: &[u8],
    tokens: &[Token],
    stars: usize,
    definition: &Definition,
) -> Option<LimitKind>
    requires tokens { AreTokensOf source.now tokens.now }
    requires nodes { HasFewNodes definition.now }
    ensures { result ≡ limit_beyond stars (record
        { lexemes = lexemes_of source.now tokens.now; defines = defined definition.now }) }
{
    if has_great_number(source, tokens) {
        return Some(LimitKind::Number);
    }
    if has_long_word(source, tokens) {
        return Some(LimitKind::Name);
    }
    match definition {
        Definition::Version => None,
        Definition::Select(definition) => select_limit(definition),
        Definition::Formula(definition) => formula_limit(definition),
        Definition::Star(star) => star_limit(stars, star),
    }
}
