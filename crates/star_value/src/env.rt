// The bindings of the names that an alternative may use.

ghost use Rattle.std.specs.Prelude.{◌≡◌, ◌<◌, ◌≤◌, [], ◌∷◌, ◌++◌, length, IsOk, ◌↔◌, OnOk, OnErr, IfErr};
ghost use Rattle.star_model.specs.Limits.{most_bindings};

use crate::copies::copied;
use arrayvec::ArrayVec;
use star_model::values::RuleValue;
use std::marker::Model;

/// The values of a STAR's parameters, and then those of its alternative's for-all names. At most
/// 10: 8 parameters and 2 such names.
#[derive(Drop)]
pub struct Env {
    values: ArrayVec<RuleValue, 10>,
}

impl Model for Env {
    ghost use Rattle.std.specs.Prelude.{List};
    ghost use Rattle.star_model.specs.declared.values.RuleValue.{RuleValue};

    ghost Value = { List RuleValue };

    ghost view = { λ a. a.values.items };
}

impl Env {
    pub fn new() -> Env
        ensures { result ≡ [] }
    {
        Env {
            values: ArrayVec::new(),
        }
    }

    pub fn len(&self) -> usize
        ensures { result ≡ length self.now }
    {
        self.values.len()
    }

    pub fn as_slice(&self) -> &[RuleValue]
        ensures value { result.now ≡ self.now }
        ensures room { length result.now ≤ most_bindings }
    {
        self.values.as_slice()
    }

    /// Binds the next name, or gives the value back where 10 are bound.
    pub fn try_push(&mut self, item: RuleValue) -> Result<(), RuleValue>
        ensures variant { IsOk result ↔ (length self.old < most_bindings) }
        ensures ok { OnOk result (self.new ≡ self.old ++ item ∷ []) }
        ensures err { OnErr result (self.new ≡ self.old) }
        ensures given_back { IfErr result (λ v. v ≡ item) }
    {
        if self.values.len() < 10 {
            self.values.push(item);
            Ok(())
        } else {
            Err(item)
        }
    }

    /// Equal bindings. It takes no memory.
    pub fn copied(&self) -> Env
        ensures { result ≡ self.now }
    {
        copy_of(self.as_slice())
    }
}

fn copy_of(values: &[RuleValue]) -> Env
    requires { length values.now ≤ most_bindings }
    ensures { result ≡ values.now }
{
    let mut copy = Env::new();
    for (i, value) in values.iter().enumerate() {
        let pushed = copy.try_push(copied(value));
        prove!(pushed.is_ok());
    }
    copy
}
