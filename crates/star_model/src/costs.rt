// The formulas of a rule file, by operator and cost.

ghost use Rattle.std.specs.Prelude.{◌≡◌, [], ◌∷◌, ◌++◌, OnOk, OnErr, None};
ghost use Rattle.star_model.specs.Costs.{formula_of};
ghost use Rattle.std.specs.Option.{option_copied};

use crate::formula::Formula;
use crate::rules::{Flavour, Which};
use std::alloc::{AllocError, Global};
use std::marker::Model;

/// An entry of `Costs`.
#[derive(Drop)]
pub struct CostEntry {
    pub flavour: Flavour,
    pub which: Which,
    pub formula: Formula,
}

/// A finite map from an operator and a cost to a formula.
#[derive(Drop)]
pub struct Costs {
    entries: Vec<CostEntry>,
}

impl Model for Costs {
    ghost use Rattle.std.specs.Prelude.{List};
    ghost use Rattle.star_model.specs.declared.costs.CostEntry.{CostEntry};
    ghost use Rattle.std.specs.Coded.{coded_list};
    ghost use Rattle.star_model.specs.contracts.costs.CostEntry as entry;

    ghost Value = { List CostEntry };

    ghost coded = { coded_list entry.the_row.coded };

    ghost view = { λ a. a.entries.items };
}

impl Costs {
    /// The empty map. It takes no memory.
    pub fn new(alloc: Global) -> Costs
        ensures { result ≡ [] }
    {
        Costs {
            entries: Vec::new(alloc),
        }
    }

    /// Adds a formula. Where memory is wanting, the map stays and the formula is dropped.
    pub fn put(
        &mut self,
        flavour: Flavour,
        which: Which,
        formula: Formula,
    ) -> Result<(), AllocError>
        requires { formula_of self.old flavour which ≡ None }
        ensures ok { OnOk result (self.new ≡ self.old
            ++ record { flavour = flavour; which = which; formula = formula } ∷ []) }
        ensures err { OnErr result (self.new ≡ self.old) }
    {
        self.entries.push(CostEntry {
            flavour,
            which,
            formula,
        })?;
        Ok(())
    }

    /// The formula of the operator and cost, if there is one.
    pub fn formula(&self, flavour: Flavour, which: Which) -> Option<&Formula>
        ensures { option_copied result ≡ formula_of self.now flavour which }
    {
        find_formula(self.entries.as_slice(), flavour, which)
    }
}

#[tactic(auto, unfolding(crate::specs::Costs::formula_of))]
fn find_formula(entries: &[CostEntry], flavour: Flavour, which: Which) -> Option<&Formula>
    ensures { option_copied result ≡ formula_of entries.now flavour which }
{
    match entries {
        [] => None,
        [entry, more @ ..] => {
            if entry.flavour == flavour && entry.which == which {
                Some(&entry.formula)
            } else {
                find_formula(more, flavour, which)
            }
        }
    }
}
