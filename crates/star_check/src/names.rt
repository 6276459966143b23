// Which STAR a name is of.
ghost use Rattle.std.specs.Prelude.{◌≡◌, position, codes};
ghost use Rattle.std.specs.Option.{option_copied};
ghost use Rattle.star_model.specs.Stars.{star_named};
ghost use Rattle.star_model.specs.Vectors.{same_numbers};

use star_model::lists::Name;
use star_model::rules::{RuleFile, StarDef};

pub fn star_named<'a>(rules: &'a RuleFile, name: &Name) -> Option<&'a StarDef>
    ensures { option_copied result ≡ star_named rules.now name.now }
{
    rules
        .stars
        .as_slice()
        .iter()
        .find(|star| star.name.as_slice() == name.as_slice())
}

pub fn same_name(left: &Name, right: &Name) -> bool
    ensures { result ≡ same_numbers left.now right.now }
{
    left.as_slice() == right.as_slice()
}

/// Whether the STAR is the one from which accesses are derived.
pub fn is_access_root(star: &StarDef) -> bool
    ensures { result ≡ same_numbers star.now.name (codes "AccessRoot") }
{
    star.name.as_slice() == b"AccessRoot".as_slice()
}

/// Whether the STAR is the one from which joins are derived.
pub fn is_join_root(star: &StarDef) -> bool
    ensures { result ≡ same_numbers star.now.name (codes "JoinRoot") }
{
    star.name.as_slice() == b"JoinRoot".as_slice()
}

/// The position of the STAR of this name.
pub fn position_named(stars: &[StarDef], name: &Name) -> Option<usize>
    ensures { result ≡ position (λ s. same_numbers s.name name.now) stars.now }
{
    stars.iter().position(|star| same_name(&star.name, name))
}
