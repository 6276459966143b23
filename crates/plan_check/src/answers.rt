// What judging answers, and by what it goes.

ghost use Rattle.std.specs.Prelude.{◌+◌};
ghost use Rattle.star_model.specs.Judging.{vector_or};
ghost use Rattle.plan_check.specs.Judged.{Tells};

use star_check::CheckedRules;
use star_model::derivations::ForAllValues;
use star_model::lists::Name;
use star_model::plans::Props;
use star_model::query::Query;

/// The tree is no derivation of the query's plans under the rules.
#[derive(Clone, Copy, Debug, PartialEq, Eq)]
pub struct NotDerived {
    /// The number of the first invalid node in preorder. The top is node 1.
    pub node: u32,
}

// By what a derivation is judged.
#[derive(Clone, Copy)]
pub struct Basis<'a> {
    pub rules: &'a CheckedRules,
    pub query: &'a Query,
}

// What a reference node says.
#[derive(Clone, Copy)]
pub struct Referred<'a> {
    pub star: &'a Name,
    // The number of its alternative, from 1.
    pub alternative: u32,
    pub values: &'a ForAllValues,
}

// A valid tree.
#[derive(Drop)]
pub struct Judged {
    pub props: Props,
    // The number of its last node in preorder.
    pub last: u32,
}

// The tree from this node to the last is valid if it has a vector; else the node is invalid.
pub fn answer(found: Option<Props>, node: u32, last: u32) -> Result<Judged, NotDerived>
    ensures { Tells result (vector_or node found) (last + 1) }
{
    match found {
        None => Err(NotDerived { node }),
        Some(props) => Ok(Judged { props, last }),
    }
}
