// Heights of STARs: how many stand one above the other.
ghost use Rattle.std.specs.Prelude.{◌≡◌, ◌≤◌, ◌<◌, length, map, replicate, IfOk};
ghost use Rattle.std.specs.List.{fold, All};
ghost use Rattle.star_model.specs.Limits.{most_stars};
ghost use Rattle.star_model.specs.Vectors.{same_numbers};
ghost use Rattle.star_model.specs.Accepted.{references_in, references_of, height_of};
ghost use Rattle.star_check.specs.Findings.{IsFirstFound};
ghost use Rattle.star_check.specs.Owning.{NamesAreOwn, NamesAreKnown};
ghost use Rattle.star_check.specs.Sizes.{size_among, greater, next_height, found_over, ShowsTall};

use crate::found::{Found, earlier_found};
use crate::names::position_named;
use star_model::lists::Name;
use star_model::rules::{PlanExpr, RuleFile, StarDef};
use std::alloc::{AllocError, Global};

fn height_among(stars: &[StarDef], heights: &[u32], name: &Name) -> u32
    requires { length heights.now ≡ length stars.now }
    ensures { result ≡ size_among stars.now heights.now name.now }
{
    match position_named(stars, name) {
        Some(position) => heights[position],
        None => 0,
    }
}

// The greater of this height and that of the STAR of the name.
#[tactic(auto, unfolding(crate::specs::Sizes::greater))]
fn greater(stars: &[StarDef], heights: &[u32], height: u32, name: &Name) -> u32
    requires { length heights.now ≡ length stars.now }
    ensures { result ≡ greater stars.now heights.now height name.now }
{
    height.max(height_among(stars, heights, name))
}

// The greatest of this height and those of the STARs to which the body refers.
#[tactic(auto, using(crate::proofs::Walks::walks, star_model::specs::AcceptedEquations::references_in_cases))]
fn greatest(stars: &[StarDef], heights: &[u32], plan: &PlanExpr, height: u32) -> u32
    requires { length heights.now ≡ length stars.now }
    ensures { result ≡ fold (λ h r. greater stars.now heights.now h r.0) height
        (references_in plan.now) }
{
    match plan {
        PlanExpr::Reference { star, args: _ } => greater(stars, heights, height, star),
        PlanExpr::Glue {
            stream: _,
            preds: _,
        } => height,
        PlanExpr::Leaf {
            flavour: _,
            args: _,
        } => height,
        PlanExpr::Unary {
            flavour: _,
            args: _,
            input,
        } => greatest(stars, heights, input.get(), height),
        PlanExpr::Binary {
            flavour: _,
            args: _,
            left,
            right,
        } => {
            let height = greatest(stars, heights, left.get(), height);
            greatest(stars, heights, right.get(), height)
        }
    }
}

fn greatest_of_references(stars: &[StarDef], heights: &[u32], star: &StarDef) -> u32
    requires { length heights.now ≡ length stars.now }
    ensures { result ≡ fold (λ h r. greater stars.now heights.now h r.0) 0
        (references_of star.now) }
{
    let mut height = 0;
    for alternative in star.alternatives.as_slice() {
        height = greatest(stars, heights, &alternative.body, height);
    }
    height
}

// The STAR's height, where those of the STARs that it refers to are these.
fn next_height(stars: &[StarDef], heights: &[u32], star: &StarDef) -> u32
    requires long { length heights.now ≡ length stars.now }
    requires low { All (λ h. h ≤ most_stars) heights.now }
    ensures { result ≡ next_height stars.now heights.now star.now }
{
    1 + greatest_of_references(stars, heights, star)
}

fn next_heights(alloc: Global, stars: &[StarDef], heights: &[u32]) -> Result<Vec<u32>, AllocError>
    requires long { length heights.now ≡ length stars.now }
    requires low { All (λ h. h ≤ most_stars) heights.now }
    ensures { IfOk result (λ next. next.items ≡ map (next_height stars.now heights.now) stars.now) }
{
    let mut next = Vec::new(alloc);
    for star in stars {
        next.push(next_height(stars, heights, star))?;
    }
    Ok(next)
}

fn no_heights(alloc: Global, count: usize) -> Result<Vec<u32>, AllocError>
    ensures { IfOk result (λ heights. heights.items ≡ replicate count 0) }
{
    vec![in alloc; 0; count]
}

fn are_same(heights: &[u32], others: &[u32]) -> bool
    ensures { result ≡ same_numbers heights.now others.now }
{
    heights == others
}

/// The height of each STAR. No path without a cycle is longer than the number of STARs, so that
/// many rounds are enough; after one that changes nothing no other does.
pub fn heights(alloc: Global, rules: &RuleFile) -> Result<Vec<u32>, AllocError>
    requires few { length rules.now.stars ≤ most_stars }
    requires own { NamesAreOwn rules.now }
    requires known { NamesAreKnown rules.now }
    ensures { IfOk result (λ heights. heights.items ≡ map (height_of rules.now) rules.now.stars) }
{
    let stars = rules.stars.as_slice();
    let mut heights = no_heights(alloc, stars.len())?;
    for _round in 0..stars.len() {
        let next = next_heights(alloc, stars, &heights)?;
        if are_same(&next, &heights) {
            return Ok(next);
        }
        heights = next;
    }
    Ok(heights)
}

/// The most STARs that may stand one above the other.
const MOST: u32 = 16;

fn too_tall(statement: u32, height: u32) -> Option<Found<u32>>
    ensures { result ≡ found_over 16 statement height }
{
    if height > MOST {
        Some(Found {
            statement,
            what: height,
        })
    } else {
        None
    }
}

/// The first STAR whose height is over 16, with its height.
pub fn first_too_tall(rules: &RuleFile, heights: &[u32]) -> Option<Found<u32>>
    requires { heights.now ≡ map (height_of rules.now) rules.now.stars }
    ensures { IsFirstFound (ShowsTall rules.now) rules.now.stars result }
{
    let mut first = None;
    for (position, star) in rules.stars.as_slice().iter().enumerate() {
        first = earlier_found(first, too_tall(star.statement, heights[position]));
    }
    first
}
