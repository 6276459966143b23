// Roots that are missing: the STARs from which goals are derived.
ghost use Rattle.std.specs.Prelude.{◌≡◌, codes};
ghost use Rattle.std.specs.List.{list_any};
ghost use Rattle.star_model.specs.Vectors.{same_numbers};
ghost use Rattle.star_model.specs.Accepted.{lacks_root};
ghost use Rattle.star_model.specs.declared.faults.Root.TheVariants as root;
ghost use Rattle.star_check.specs.FileFaults.{IsMissingRoot};

use crate::names::{is_access_root, is_join_root};
use star_model::faults::Root;
use star_model::rules::{RuleFile, StarDef};

#[tactic(auto, using(crate::proofs::MissingRoots::lacks_access_root))]
fn lacks_access_root(rules: &RuleFile) -> bool
    ensures { result ≡ lacks_root rules.now root.AccessRoot }
{
    !has_access_root(rules.stars.as_slice())
}

fn has_access_root(stars: &[StarDef]) -> bool
    ensures { result ≡ list_any (λ s. same_numbers s.name (codes "AccessRoot")) stars.now }
{
    stars.iter().any(is_access_root)
}

fn has_join_root(stars: &[StarDef]) -> bool
    ensures { result ≡ list_any (λ s. same_numbers s.name (codes "JoinRoot")) stars.now }
{
    stars.iter().any(is_join_root)
}

#[tactic(auto, using(crate::proofs::MissingRoots::lacks_join_root))]
fn lacks_join_root(rules: &RuleFile) -> bool
    ensures { result ≡ lacks_root rules.now root.JoinRoot }
{
    !has_join_root(rules.stars.as_slice())
}

/// The root that is missing, `AccessRoot` first.
pub fn missing_root(rules: &RuleFile) -> Option<Root>
    ensures { IsMissingRoot rules.now result }
{
    if lacks_access_root(rules) {
        Some(Root::AccessRoot)
    } else if lacks_join_root(rules) {
        Some(Root::JoinRoot)
    } else {
        None
    }
}
