// Which STARs each STAR reaches by references: Warshall's closure over rows of bits.
ghost use Rattle.std.specs.Prelude.{◌≡◌, ℕ, ◌<◌, ◌≤◌, ◌&&◌, ◌||◌, nat_eq, length, IfOk};
ghost use Rattle.std.specs.List.{list_any};
ghost use Rattle.star_model.specs.Limits.{most_stars};
ghost use Rattle.star_model.specs.Sets.{has};
ghost use Rattle.star_model.specs.Vectors.{same_numbers};
ghost use Rattle.star_model.specs.Accepted.{references_in};
ghost use Rattle.star_check.specs.Owning.{NamesAreOwn};
ghost use Rattle.star_check.specs.Reaching.{refers, refers_to, joined, joined_through, joined_below, AreDirect, AreReached};

use crate::names::same_name;
use star_model::lists::Name;
use star_model::rules::{Alternative, PlanExpr, RuleFile, StarDef};
use std::alloc::{AllocError, Global};

// Whether the body refers to the STAR of this name.
#[tactic(auto, using(crate::proofs::Walks::walks, star_model::specs::AcceptedEquations::references_in_cases))]
fn body_refers(plan: &PlanExpr, name: &Name) -> bool
    ensures { result ≡ list_any (λ r. same_numbers name.now r.0) (references_in plan.now) }
{
    match plan {
        PlanExpr::Reference { star, args: _ } => same_name(name, star),
        PlanExpr::Glue {
            stream: _,
            preds: _,
        } => false,
        PlanExpr::Leaf {
            flavour: _,
            args: _,
        } => false,
        PlanExpr::Unary {
            flavour: _,
            args: _,
            input,
        } => body_refers(input.get(), name),
        PlanExpr::Binary {
            flavour: _,
            args: _,
            left,
            right,
        } => body_refers(left.get(), name) || body_refers(right.get(), name),
    }
}

fn refers(star: &StarDef, name: &Name) -> bool
    ensures { result ≡ refers star.now name.now }
{
    star.alternatives
        .as_slice()
        .iter()
        .any(|alternative| body_refers(&alternative.body, name))
}

/// Whether the row has the position.
#[tactic(auto, using(crate::proofs::Rows::shifted), unfolding(star_model::specs::Sets::has))]
pub fn has(row: u64, position: usize) -> bool
    requires { position < most_stars }
    ensures { result ≡ has row position }
{
    row >> position & 1 == 1
}

// The row with the position too, where it counts.
#[tactic(auto, using(crate::proofs::Rows::set_bit))]
fn with_position(row: u64, position: usize, counts: bool) -> u64
    requires { position < most_stars }
    ensures { (k : ℕ) → has result k ≡ (has row k || (counts && nat_eq k position)) }
{
    if counts { row | 1 << position } else { row }
}

fn direct_row(stars: &[StarDef], star: &StarDef) -> u64
    requires { length stars.now ≤ most_stars }
    ensures { (j : ℕ) → has result j ≡ refers_to stars.now star.now j }
{
    let mut row = 0;
    for (position, other) in stars.iter().enumerate() {
        row = with_position(row, position, refers(star, &other.name));
    }
    row
}

fn direct_rows(alloc: Global, stars: &[StarDef]) -> Result<Vec<u64>, AllocError>
    requires { length stars.now ≤ most_stars }
    ensures { IfOk result (λ rows. AreDirect stars.now rows.items) }
{
    let mut rows = Vec::new(alloc);
    for star in stars {
        rows.push(direct_row(stars, star))?;
    }
    Ok(rows)
}

#[tactic(auto, unfolding(star_model::specs::Sets::union))]
fn joined(row: u64, through: usize, via: u64) -> u64
    requires { through < most_stars }
    ensures { result ≡ joined row through via }
{
    if has(row, through) { row | via } else { row }
}

fn join_through(rows: &mut [u64], through: usize)
    requires within { through < length rows.old }
    requires few { length rows.old ≤ most_stars }
    ensures { rows.new ≡ joined_through through rows.old }
{
    let via = rows[through];
    for i in 0..rows.len() {
        rows[i] = joined(rows[i], through, via);
    }
}

fn join_all(rows: &mut [u64])
    requires { length rows.old ≤ most_stars }
    ensures { rows.new ≡ joined_below (length rows.old) rows.old }
{
    for through in 0..rows.len() {
        join_through(rows, through);
    }
}

/// The rows of the STARs in the order of the file: which positions each STAR reaches.
pub fn reached(alloc: Global, rules: &RuleFile) -> Result<Vec<u64>, AllocError>
    requires few { length rules.now.stars ≤ most_stars }
    requires own { NamesAreOwn rules.now }
    ensures { IfOk result (λ rows. AreReached rules.now rows.items) }
{
    let mut rows = direct_rows(alloc, rules.stars.as_slice())?;
    join_all(&mut rows);
    Ok(rows)
}
