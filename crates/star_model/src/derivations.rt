// Derivations: how a plan comes from the rules.

ghost use Rattle.std.specs.Prelude.{◌≡◌, ◌<◌, ◌≤◌, [], ◌∷◌, ◌++◌, length, IsOk, ◌↔◌, OnOk, OnErr, IfErr};

use crate::lists::Name;
use crate::plans::{Chain, Goal};
use crate::rules::Flavour;
use crate::sets::QuantSet;
use arrayvec::ArrayVec;
use sqlite_items::Boxed;
use std::marker::Model;

/// The for-all values of a reference as they are printed: at most 2, each the number of an index,
/// site, quantifier or predicate, from 1.
#[derive(Drop)]
pub struct ForAllValues {
    numbers: ArrayVec<u32, 2>,
}

impl Model for ForAllValues {
    ghost use Rattle.std.specs.Prelude.{ℕ, List};

    ghost Value = { List ℕ };

    ghost view = { λ a. a.numbers.items };
}

impl ForAllValues {
    pub fn new() -> ForAllValues
        ensures { result ≡ [] }
    {
        ForAllValues {
            numbers: ArrayVec::new(),
        }
    }

    pub fn len(&self) -> usize
        ensures { result ≡ length self.now }
    {
        self.numbers.len()
    }

    pub fn as_slice(&self) -> &[u32]
        ensures value { result.now ≡ self.now }
        ensures room { length result.now ≤ 2 }
    {
        self.numbers.as_slice()
    }

    /// Adds the number at the end, or gives it back where there are 2.
    pub fn try_push(&mut self, item: u32) -> Result<(), u32>
        ensures variant { IsOk result ↔ (length self.old < 2) }
        ensures ok { OnOk result (self.new ≡ self.old ++ item ∷ []) }
        ensures err { OnErr result (self.new ≡ self.old) }
        ensures given_back { IfErr result (λ n. n ≡ item) }
    {
        if self.numbers.len() < 2 {
            self.numbers.push(item);
            Ok(())
        } else {
            Err(item)
        }
    }

    /// An equal list. It takes no memory.
    pub fn copied(&self) -> ForAllValues
        ensures { result ≡ self.now }
    {
        copy_of(self.as_slice())
    }
}

fn copy_of(numbers: &[u32]) -> ForAllValues
    requires { length numbers.now ≤ 2 }
    ensures { result ≡ numbers.now }
{
    let mut copy = ForAllValues::new();
    for (i, number) in numbers.iter().enumerate() {
        let pushed = copy.try_push(*number);
        prove!(pushed.is_ok());
    }
    copy
}

/// A derivation. A whole one is a `Glue` node. It may name anything: whether it is valid is a
/// matter of the rules and the query.
#[derive(Drop)]
pub enum Deriv {
    /// The operators of Glue over a goal node.
    Glue {
        chain: Chain,
        goal: Boxed<Deriv>,
    },
    /// A goal, derived through a reference to a root STAR. A goal of several quantifiers has a
    /// split.
    Goal {
        goal: Goal,
        split: Option<(QuantSet, QuantSet)>,
        body: Boxed<Deriv>,
    },
    /// An alternative of a STAR, by its number from 1.
    Reference {
        star: Name,
        alternative: u32,
        values: ForAllValues,
        body: Boxed<Deriv>,
    },
    Leaf {
        flavour: Flavour,
    },
    Unary {
        flavour: Flavour,
        input: Boxed<Deriv>,
    },
    Binary {
        flavour: Flavour,
        left: Boxed<Deriv>,
        right: Boxed<Deriv>,
    },
}
