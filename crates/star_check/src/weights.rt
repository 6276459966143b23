// Weights of STARs: how many plans their alternatives may give, at the least.
ghost use Rattle.std.specs.Prelude.{◌≡◌, length, map, replicate, IfOk};
ghost use Rattle.std.specs.List.{fold};
ghost use Rattle.star_model.specs.Limits.{most_weight};
ghost use Rattle.star_model.specs.Numbers.{cut_sum};
ghost use Rattle.star_model.specs.Vectors.{same_numbers};
ghost use Rattle.star_model.specs.Accepted.{references_in, weight_of};
ghost use Rattle.star_check.specs.Findings.{IsFirstFound};
ghost use Rattle.star_check.specs.Owning.{NamesAreOwn};
ghost use Rattle.star_check.specs.Sizes.{size_among, next_weight, found_over, ShowsWide};

use crate::found::{Found, earlier_found};
use crate::names::position_named;
use star_model::lists::Name;
use star_model::num::{Num, cap_add};
use star_model::rules::{PlanExpr, RuleFile, StarDef};
use std::alloc::{AllocError, Global};

fn weight_among(stars: &[StarDef], weights: &[Num], name: &Name) -> Num
    requires { length weights.now ≡ length stars.now }
    ensures { result ≡ size_among stars.now weights.now name.now }
{
    match position_named(stars, name) {
        Some(position) => weights[position],
        None => Num::cut(0),
    }
}

// The sum and the weights of the STARs to which the body refers, each occurrence counted.
#[tactic(auto, using(crate::proofs::Walks::walks, star_model::specs::AcceptedEquations::references_in_cases))]
fn with_references(stars: &[StarDef], weights: &[Num], plan: &PlanExpr, sum: Num) -> Num
    requires { length weights.now ≡ length stars.now }
    ensures { result ≡ fold (λ x r. cut_sum x (size_among stars.now weights.now r.0)) sum
        (references_in plan.now) }
{
    match plan {
        PlanExpr::Reference { star, args: _ } => cap_add(sum, weight_among(stars, weights, star)),
        PlanExpr::Glue {
            stream: _,
            preds: _,
        } => sum,
        PlanExpr::Leaf {
            flavour: _,
            args: _,
        } => sum,
        PlanExpr::Unary {
            flavour: _,
            args: _,
            input,
        } => with_references(stars, weights, input.get(), sum),
        PlanExpr::Binary {
            flavour: _,
            args: _,
            left,
            right,
        } => {
            let sum = with_references(stars, weights, left.get(), sum);
            with_references(stars, weights, right.get(), sum)
        }
    }
}

// The STAR's weight, where those of the STARs that it refers to are these.
fn next_weight(stars: &[StarDef], weights: &[Num], star: &StarDef) -> Num
    requires { length weights.now ≡ length stars.now }
    ensures { result ≡ next_weight stars.now weights.now star.now }
{
    let mut sum = Num::cut(0);
    for alternative in star.alternatives.as_slice() {
        let own = with_references(stars, weights, &alternative.body, Num::cut(1));
        sum = cap_add(sum, own);
    }
    sum
}

fn next_weights(alloc: Global, stars: &[StarDef], weights: &[Num]) -> Result<Vec<Num>, AllocError>
    requires { length weights.now ≡ length stars.now }
    ensures { IfOk result (λ next. next.items ≡ map (next_weight stars.now weights.now) stars.now) }
{
    let mut next = Vec::new(alloc);
    for star in stars {
        next.push(next_weight(stars, weights, star))?;
    }
    Ok(next)
}

fn no_weights(alloc: Global, count: usize) -> Result<Vec<Num>, AllocError>
    ensures { IfOk result (λ weights. weights.items ≡ replicate count 0) }
{
    vec![in alloc; Num::cut(0); count]
}

fn are_same(weights: &[Num], others: &[Num]) -> bool
    ensures { result ≡ same_numbers weights.now others.now }
{
    weights == others
}

/// The weight of each STAR. No path without a cycle is longer than the number of STARs, so that
/// many rounds are enough; after one that changes nothing no other does.
pub fn weights(alloc: Global, rules: &RuleFile) -> Result<Vec<Num>, AllocError>
    requires { NamesAreOwn rules.now }
    ensures { IfOk result (λ weights. weights.items ≡ map (weight_of rules.now) rules.now.stars) }
{
    let stars = rules.stars.as_slice();
    let mut weights = no_weights(alloc, stars.len())?;
    for _round in 0..stars.len() {
        let next = next_weights(alloc, stars, &weights)?;
        if are_same(&next, &weights) {
            return Ok(next);
        }
        weights = next;
    }
    Ok(weights)
}

/// The most that a STAR may weigh.
const MOST: u64 = 4096;

fn too_wide(statement: u32, weight: Num) -> Option<Found<Num>>
    ensures { result ≡ found_over most_weight statement weight }
{
    if weight.get() > MOST {
        Some(Found {
            statement,
            what: weight,
        })
    } else {
        None
    }
}

/// The first STAR whose weight is over 4096, with its weight.
pub fn first_too_wide(rules: &RuleFile, weights: &[Num]) -> Option<Found<Num>>
    requires { weights.now ≡ map (weight_of rules.now) rules.now.stars }
    ensures { IsFirstFound (ShowsWide rules.now) rules.now.stars result }
{
    let mut first = None;
    for (position, star) in rules.stars.as_slice().iter().enumerate() {
        first = earlier_found(first, too_wide(star.statement, weights[position]));
    }
    first
}
