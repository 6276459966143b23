// Statements with a value of another kind than its place asks, or with a root's parameters of other
// kinds.
ghost use Rattle.std.specs.Prelude.{◌≡◌, not, ◌||◌, map, true, IfOk};
ghost use Rattle.std.specs.List.{list_all};
ghost use Rattle.std.specs.Option.{option_map_or};
ghost use Rattle.star_model.specs.Kinds.{is_kinded, kinds_after};
ghost use Rattle.star_model.specs.Accepted.{alternative_has_kinds, has_wrong_kind};
ghost use Rattle.star_check.specs.KindTests.{are_of_kinds, is_wrong_access, is_wrong_join};
ghost use Rattle.star_check.specs.FirstStatements.{first_star};

use crate::body_kinds::body_has_kinds;
use crate::first::with_statement;
use crate::kinds::{is_kinded, kind_of_range};
use crate::names::{is_access_root, is_join_root};
use star_model::lists::List;
use star_model::rules::{Alternative, Condition, ForAll, Kind, Param, RuleFile, StarDef};
use std::alloc::{AllocError, Global};

fn kinds_of(alloc: Global, params: &[Param]) -> Result<List<Kind>, AllocError>
    ensures { IfOk result (λ kinds. kinds ≡ map (λ p. p.kind) params.now) }
{
    let mut kinds = List::new(alloc);
    for param in params {
        kinds.push(param.kind)?;
    }
    Ok(kinds)
}

// The kinds of the parameters and of the for-all names; none where a range is not well kinded.
fn kinds_after(
    alloc: Global,
    params: &[Param],
    ranges: &[ForAll],
) -> Result<Option<List<Kind>>, AllocError>
    ensures { IfOk result (λ kinds. kinds ≡ kinds_after (map (λ p. p.kind) params.now) ranges.now) }
{
    let mut kinds = kinds_of(alloc, params)?;
    for each in ranges {
        match kind_of_range(kinds.as_slice(), &each.range) {
            Some(kind) => kinds.push(kind)?,
            None => return Ok(None),
        }
    }
    Ok(Some(kinds))
}

fn is_kinded_if_any(kinds: &[Kind], condition: &Option<Condition>) -> bool
    ensures { result ≡ option_map_or (is_kinded kinds.now) condition.now true }
{
    match condition {
        None => true,
        Some(condition) => is_kinded(kinds, condition),
    }
}

fn alternative_has_kinds(
    alloc: Global,
    rules: &RuleFile,
    params: &[Param],
    alternative: &Alternative,
) -> Result<bool, AllocError>
    ensures { IfOk result (λ has. has ≡ alternative_has_kinds rules.now
        (map (λ p. p.kind) params.now) alternative.now) }
{
    match kinds_after(alloc, params, alternative.ranges.as_slice())? {
        None => Ok(false),
        Some(kinds) => Ok(
            is_kinded_if_any(kinds.as_slice(), &alternative.condition)
                && body_has_kinds(rules, kinds.as_slice(), &alternative.body),
        ),
    }
}

fn alternatives_have_kinds(
    alloc: Global,
    rules: &RuleFile,
    star: &StarDef,
) -> Result<bool, AllocError>
    ensures { IfOk result (λ have. have ≡ list_all
        (alternative_has_kinds rules.now (map (λ p. p.kind) star.now.params))
        star.now.alternatives) }
{
    let params = star.params.as_slice();
    for alternative in star.alternatives.as_slice() {
        if !alternative_has_kinds(alloc, rules, params, alternative)? {
            return Ok(false);
        }
    }
    Ok(true)
}

// Whether the parameters have these kinds, and there are no others.
fn are_of_kinds(params: &[Param], kinds: &[Kind]) -> bool
    ensures { result ≡ are_of_kinds params.now kinds.now }
{
    match params {
        [] => kinds.is_empty(),
        [param, params @ ..] => match kinds {
            [] => false,
            [kind, kinds @ ..] => param.kind == *kind && are_of_kinds(params, kinds),
        },
    }
}

// Whether it is `AccessRoot` and its parameters aren't a stream and predicates.
fn is_wrong_access(star: &StarDef) -> bool
    ensures { result ≡ is_wrong_access star.now }
{
    is_access_root(star) && !are_of_kinds(star.params.as_slice(), &[Kind::Stream, Kind::Preds])
}

// Whether it is `JoinRoot` and its parameters aren't two streams and predicates.
fn is_wrong_join(star: &StarDef) -> bool
    ensures { result ≡ is_wrong_join star.now }
{
    let wanted = [Kind::Stream, Kind::Stream, Kind::Preds];
    is_join_root(star) && !are_of_kinds(star.params.as_slice(), &wanted)
}

fn is_wrong_root(star: &StarDef) -> bool
    ensures { result ≡ (is_wrong_access star.now || is_wrong_join star.now) }
{
    is_wrong_access(star) || is_wrong_join(star)
}

#[tactic(auto, using(crate::proofs::WrongKinds::wrong_kind))]
fn has_wrong_kind(alloc: Global, rules: &RuleFile, star: &StarDef) -> Result<bool, AllocError>
    ensures { IfOk result (λ has. has ≡ has_wrong_kind rules.now star.now) }
{
    let is_kinded = alternatives_have_kinds(alloc, rules, star)?;
    Ok(!is_kinded || is_wrong_root(star))
}

/// The first statement with a wrong kind.
pub fn first_wrong_kind(alloc: Global, rules: &RuleFile) -> Result<Option<u32>, AllocError>
    ensures { IfOk result (λ first. first ≡ first_star (has_wrong_kind rules.now) rules.now.stars) }
{
    let mut first = None;
    for star in rules.stars.as_slice() {
        first = with_statement(first, has_wrong_kind(alloc, rules, star)?, star.statement);
    }
    Ok(first)
}
