// The selectivities of a rule file, by class of predicates.

ghost use Rattle.std.specs.Prelude.{◌≡◌, [], ◌∷◌, ◌++◌, OnOk, OnErr, None};
ghost use Rattle.std.specs.Option.{option_map, option_copied};
ghost use Rattle.star_model.specs.Selectivity.{select_of};

use crate::formula::Formula;
use crate::rules::Class;
use std::alloc::{AllocError, Global};
use std::marker::Model;

/// An entry of `Selects`.
#[derive(Drop)]
pub struct SelectEntry {
    pub class: Class,
    pub num: Formula,
    pub den: Formula,
}

/// A finite map from a class of predicates to the two formulas of its selectivity.
#[derive(Drop)]
pub struct Selects {
    entries: Vec<SelectEntry>,
}

impl Model for Selects {
    ghost use Rattle.std.specs.Prelude.{List};
    ghost use Rattle.star_model.specs.declared.selects.SelectEntry.{SelectEntry};
    ghost use Rattle.std.specs.Coded.{coded_list};
    ghost use Rattle.star_model.specs.contracts.selects.SelectEntry as entry;

    ghost Value = { List SelectEntry };

    ghost coded = { coded_list entry.the_row.coded };

    ghost view = { λ a. a.entries.items };
}

impl Selects {
    /// The empty map. It takes no memory.
    pub fn new(alloc: Global) -> Selects
        ensures { result ≡ [] }
    {
        Selects {
            entries: Vec::new(alloc),
        }
    }

    /// Adds the formulas of a class. Where memory is wanting, the map stays and both formulas are
    /// dropped.
    pub fn put(&mut self, class: Class, num: Formula, den: Formula) -> Result<(), AllocError>
        requires { select_of self.old class ≡ None }
        ensures ok { OnOk result (self.new ≡ self.old
            ++ record { class = class; num = num; den = den } ∷ []) }
        ensures err { OnErr result (self.new ≡ self.old) }
    {
        self.entries.push(SelectEntry { class, num, den })?;
        Ok(())
    }

    /// The formula of the class for `num`, if there is one.
    pub fn num(&self, class: Class) -> Option<&Formula>
        ensures { option_copied result ≡ option_map (λ e. e.num) (select_of self.now class) }
    {
        find_select(self.entries.as_slice(), class).map(|entry| &entry.num)
    }

    /// The formula of the class for `den`, if there is one.
    pub fn den(&self, class: Class) -> Option<&Formula>
        ensures { option_copied result ≡ option_map (λ e. e.den) (select_of self.now class) }
    {
        find_select(self.entries.as_slice(), class).map(|entry| &entry.den)
    }
}

#[tactic(auto, unfolding(crate::specs::Selectivity::select_of))]
fn find_select(entries: &[SelectEntry], class: Class) -> Option<&SelectEntry>
    ensures { option_copied result ≡ select_of entries.now class }
{
    entries.iter().find(|entry| entry.class == class)
}
