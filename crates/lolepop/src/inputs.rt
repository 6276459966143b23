// The vectors of an operator's inputs, and what is taken from them together.

ghost use Rattle.std.specs.Prelude.{◌≡◌, ◌<◌, fold, length, slice_get, option_copied};
ghost use Rattle.star_model.specs.Sets.{union};
ghost use Rattle.star_model.specs.Operators.{first_order, first_site, both_columns};
ghost use Rattle.lolepop.specs.Inputs.{vectors};

use star_model::columns::{ColList, ColSet, Site};
use star_model::plans::Props;
use star_model::sets::{PredSet, QuantSet};

/// The vectors of an operator's inputs.
#[derive(Clone, Copy)]
pub enum Inputs<'a> {
    None,
    One(&'a Props),
    Two(&'a Props, &'a Props),
}

impl<'a> Inputs<'a> {
    pub fn first(&self) -> Option<&'a Props>
        ensures { option_copied result ≡ slice_get (vectors self.now) 0 }
    {
        match *self {
            Inputs::None => None,
            Inputs::One(v) => Some(v),
            Inputs::Two(v, _) => Some(v),
        }
    }

    pub fn second(&self) -> Option<&'a Props>
        ensures { option_copied result ≡ slice_get (vectors self.now) 1 }
    {
        match *self {
            Inputs::None => None,
            Inputs::One(_) => None,
            Inputs::Two(_, w) => Some(w),
        }
    }

    /// The quantifiers of all.
    pub fn tables(&self) -> QuantSet
        ensures { result ≡ fold (λ s v. union s v.tables) 0 (vectors self.now) }
    {
        let none = QuantSet::empty();
        match self {
            Inputs::None => none,
            Inputs::One(v) => none.union(v.tables),
            Inputs::Two(v, w) => none.union(v.tables).union(w.tables),
        }
    }

    /// These predicates, and those of all.
    pub fn preds_beside(&self, applied: PredSet) -> PredSet
        ensures { result ≡ fold (λ s v. union s v.preds) applied (vectors self.now) }
    {
        match self {
            Inputs::None => applied,
            Inputs::One(v) => applied.union(v.preds),
            Inputs::Two(v, w) => applied.union(v.preds).union(w.preds),
        }
    }

    pub fn first_order(&self) -> ColList
        ensures { result ≡ first_order (vectors self.now) }
    {
        match self {
            Inputs::None => ColList::new(),
            Inputs::One(v) => v.order.copied(),
            Inputs::Two(v, _) => v.order.copied(),
        }
    }

    pub fn first_site(&self) -> Site
        ensures { result ≡ first_site (vectors self.now) }
    {
        match self {
            Inputs::None => Site(0),
            Inputs::One(v) => v.site,
            Inputs::Two(v, _) => v.site,
        }
    }

    /// The columns of all.
    pub fn cols(&self) -> ColSet
        requires { 0 < length (vectors self.now) }
        ensures { result ≡ both_columns (vectors self.now) }
    {
        match self {
            Inputs::None => ColSet::empty(),
            Inputs::One(v) => v.cols,
            Inputs::Two(v, w) => v.cols.union(&w.cols),
        }
    }
}
