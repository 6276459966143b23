// STARs that reach themselves, and STARs of accesses that call Glue.
ghost use Rattle.std.specs.Prelude.{◌≡◌, ◌<◌, ◌≤◌, nat_lt, ◌&&◌, ◌||◌, length, position, codes};
ghost use Rattle.star_model.specs.Limits.{most_stars};
ghost use Rattle.star_model.specs.Sets.{has};
ghost use Rattle.star_model.specs.Vectors.{same_numbers};
ghost use Rattle.star_model.specs.Accepted.{glues_in};
ghost use Rattle.star_check.specs.Findings.{IsFirstFound};
ghost use Rattle.star_check.specs.Reaching.{AreReached};
ghost use Rattle.star_check.specs.CycleFaults.{ShowsCycle, ShowsGlue, found_if, access_row, has_glue};

use crate::found::{Found, earlier_found};
use crate::names::is_access_root;
use crate::reach::has;
use star_model::rules::{Alternative, PlanExpr, RuleFile, StarDef};

// The statement, where it has the case.
fn found_if(shows: bool, statement: u32) -> Option<Found<()>>
    ensures { result ≡ found_if shows statement }
{
    if shows {
        Some(Found {
            statement,
            what: (),
        })
    } else {
        None
    }
}

/// The first STAR that reaches itself.
pub fn first_in_cycle(rules: &RuleFile, rows: &[u64]) -> Option<Found<()>>
    requires few { length rules.now.stars ≤ most_stars }
    requires reached { AreReached rules.now rows.now }
    ensures { IsFirstFound (ShowsCycle rules.now) rules.now.stars result }
{
    let mut first = None;
    for (position, star) in rules.stars.as_slice().iter().enumerate() {
        let own = found_if(has(rows[position], position), star.statement);
        first = earlier_found(first, own);
    }
    first
}

// Whether the body calls Glue.
#[tactic(auto, using(crate::proofs::Glues::some_glue, star_model::specs::AcceptedEquations::glues_in_cases))]
fn calls_glue(plan: &PlanExpr) -> bool
    ensures { result ≡ nat_lt 0 (length (glues_in plan.now)) }
{
    match plan {
        PlanExpr::Reference { star: _, args: _ } => false,
        PlanExpr::Glue {
            stream: _,
            preds: _,
        } => true,
        PlanExpr::Leaf {
            flavour: _,
            args: _,
        } => false,
        PlanExpr::Unary {
            flavour: _,
            args: _,
            input,
        } => calls_glue(input.get()),
        PlanExpr::Binary {
            flavour: _,
            args: _,
            left,
            right,
        } => calls_glue(left.get()) || calls_glue(right.get()),
    }
}

fn has_glue(alternatives: &[Alternative]) -> bool
    ensures { result ≡ has_glue alternatives.now }
{
    alternatives
        .iter()
        .any(|alternative| calls_glue(&alternative.body))
}

fn position_of_access_root(stars: &[StarDef]) -> Option<usize>
    ensures { result ≡ position (λ s. same_numbers s.name (codes "AccessRoot")) stars.now }
{
    stars.iter().position(is_access_root)
}

// The row of `AccessRoot`; empty where there is none.
fn access_row(stars: &[StarDef], rows: &[u64]) -> u64
    requires { length rows.now ≡ length stars.now }
    ensures { result ≡ access_row stars.now rows.now }
{
    match position_of_access_root(stars) {
        Some(position) => rows[position],
        None => 0,
    }
}

// Whether the STAR is `AccessRoot` or reached from it, and calls Glue.
fn has_glue_in_access(star: &StarDef, access: u64, position: usize) -> bool
    requires { position < most_stars }
    ensures { result ≡ ((same_numbers star.now.name (codes "AccessRoot") || has access position)
        && has_glue star.now.alternatives) }
{
    (is_access_root(star) || has(access, position)) && has_glue(star.alternatives.as_slice())
}

/// The first STAR that is `AccessRoot` or reached from it, and calls Glue.
pub fn first_glue_in_access(rules: &RuleFile, rows: &[u64]) -> Option<Found<()>>
    requires few { length rules.now.stars ≤ most_stars }
    requires reached { AreReached rules.now rows.now }
    ensures { IsFirstFound (ShowsGlue rules.now) rules.now.stars result }
{
    let access = access_row(rules.stars.as_slice(), rows);
    let mut first = None;
    for (position, star) in rules.stars.as_slice().iter().enumerate() {
        let own = found_if(has_glue_in_access(star, access, position), star.statement);
        first = earlier_found(first, own);
    }
    first
}
