// The root STAR that makes the plans of a split. None of it takes memory.

ghost use Rattle.std.specs.Prelude.{◌≡◌, IsSome};
ghost use Rattle.std.specs.Option.{option_copied};
ghost use Rattle.star_model.specs.Stars.{star_named};
ghost use Rattle.search_places.specs.Roots.{root_of_split};

use star_check::CheckedRules;
use star_model::lists::Name;
use star_model::rules::{RuleFile, StarDef};
use star_model::sets::QuantSet;

/// The STAR that is called by these letters.
pub fn star_called<'a>(rules: &'a RuleFile, letters: &[u8]) -> Option<&'a StarDef>
    ensures { option_copied result ≡ star_named rules.now letters.now }
{
    rules
        .stars
        .as_slice()
        .iter()
        .find(|star| star.name.as_slice() == letters)
}

/// The name of the root STAR of a split, as the file has it: that for one quantifier, where there
/// is no split, or that for several.
pub fn root_name<'a>(rules: &'a CheckedRules, split: Option<(QuantSet, QuantSet)>) -> &'a Name
    ensures { result.now ≡ root_of_split split }
{
    rules.stands();
    match split {
        None => name_called(rules.rules(), b"AccessRoot".as_slice()),
        Some(_) => name_called(rules.rules(), b"JoinRoot".as_slice()),
    }
}

fn name_called<'a>(rules: &'a RuleFile, letters: &[u8]) -> &'a Name
    requires { IsSome (star_named rules.now letters.now) }
    ensures { result.now ≡ letters.now }
{
    match star_called(rules, letters) {
        Some(star) => &star.name,
        None => unreachable!(),
    }
}
