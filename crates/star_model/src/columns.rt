// Sites, quantifiers and columns, by their positions from 0.

ghost use Rattle.std.specs.Prelude.{◌≡◌, ◌<◌, ◌≤◌, [], ◌∷◌, ◌++◌, length, IsOk, ◌↔◌, OnOk, OnErr, IfErr, replicate};
ghost use Rattle.star_model.specs.Columns.{has_column, with_column, union_columns, is_columns_within};
ghost use Rattle.std.specs.List.{list_any};
ghost use Rattle.star_model.specs.Limits.{most_columns, most_in_order, most_quantifiers};
ghost use Rattle.star_model.specs.Sets.{is_within};
ghost use Rattle.star_model.specs.Vectors.{begins, same_column};

use arrayvec::ArrayVec;
use std::marker::Model;

/// A site, by its position in the catalogue.
#[derive(Clone, Copy, Debug, Default, PartialEq, Eq, PartialOrd, Ord, Hash)]
pub struct Site(pub u8);

/// A quantifier, by its position in the query.
#[derive(Clone, Copy, Debug, Default, PartialEq, Eq, PartialOrd, Ord, Hash)]
pub struct Quant(pub u8);

/// A column of a quantifier, by its position in the quantifier's table.
#[derive(Clone, Copy, Debug, Default, PartialEq, Eq, PartialOrd, Ord, Hash)]
pub struct Col {
    pub quant: Quant,
    pub column: u8,
}

/// A list of at most 16 columns: an order, a path, or the columns that an operator is given.
#[derive(Drop)]
pub struct ColList {
    cols: ArrayVec<Col, 16>,
}

impl Model for ColList {
    ghost use Rattle.std.specs.Prelude.{List};
    ghost use Rattle.star_model.specs.declared.columns.Col.{Col};

    ghost Value = { List Col };

    ghost view = { λ a. a.cols.items };
}

impl ColList {
    pub fn new() -> ColList
        ensures { result ≡ [] }
    {
        ColList {
            cols: ArrayVec::new(),
        }
    }

    pub fn len(&self) -> usize
        ensures { result ≡ length self.now }
    {
        self.cols.len()
    }

    pub fn as_slice(&self) -> &[Col]
        ensures value { result.now ≡ self.now }
        ensures room { length result.now ≤ most_in_order }
    {
        self.cols.as_slice()
    }

    /// Adds the column at the end, or gives it back where there are 16.
    pub fn try_push(&mut self, item: Col) -> Result<(), Col>
        ensures variant { IsOk result ↔ (length self.old < most_in_order) }
        ensures ok { OnOk result (self.new ≡ self.old ++ item ∷ []) }
        ensures err { OnErr result (self.new ≡ self.old) }
        ensures given_back { IfErr result (λ c. c ≡ item) }
    {
        if self.cols.len() < 16 {
            self.cols.push(item);
            Ok(())
        } else {
            Err(item)
        }
    }

    /// Whether it has the column.
    pub fn has(&self, col: Col) -> bool
        ensures { result ≡ list_any (same_column col) self.now }
    {
        contains(self.as_slice(), col)
    }

    /// Whether the other list is a prefix of it.
    pub fn begins_with(&self, prefix: &ColList) -> bool
        ensures { result ≡ begins prefix.now self.now }
    {
        starts_with(self.as_slice(), prefix.as_slice())
    }

    /// An equal list. It takes no memory.
    pub fn copied(&self) -> ColList
        ensures { result ≡ self.now }
    {
        copy_of(self.as_slice())
    }
}

fn contains(cols: &[Col], col: Col) -> bool
    ensures { result ≡ list_any (same_column col) cols.now }
{
    cols.contains(&col)
}

fn starts_with(cols: &[Col], prefix: &[Col]) -> bool
    ensures { result ≡ begins prefix.now cols.now }
{
    cols.starts_with(prefix)
}

fn copy_of(cols: &[Col]) -> ColList
    requires { length cols.now ≤ most_in_order }
    ensures { result ≡ cols.now }
{
    let mut copy = ColList::new();
    for (i, col) in cols.iter().enumerate() {
        let pushed = copy.try_push(*col);
        prove!(pushed.is_ok());
    }
    copy
}

/// A set of columns: for each of 12 quantifiers the mask of its columns.
#[derive(Clone, Copy, Debug, PartialEq, Eq)]
pub struct ColSet {
    masks: [u32; 12],
}

impl Model for ColSet {
    ghost use Rattle.std.specs.Prelude.{ℕ, List};

    ghost Value = { List ℕ };

    ghost view = { λ a. a.masks };

    ghost inverse = { λ m. record { masks = m } };
}

impl ColSet {
    pub fn empty() -> Self
        ensures { result ≡ replicate 12 0 }
    {
        ColSet { masks: [0; 12] }
    }

    #[tactic(auto, using(crate::proofs::ColumnLaws::has_column_rules))]
    pub fn has(&self, col: Col) -> bool
        ensures { result ≡ has_column self.now col }
    {
        if col.quant.0 < 12 {
            let mask = self.masks[col.quant.0 as usize];
            col.column < 32 && (mask >> col.column) & 1 == 1
        } else {
            false
        }
    }

    /// Adds the column.
    pub fn insert(&mut self, col: Col)
        requires quant { col.quant.0 < most_quantifiers }
        requires column { col.column < most_columns }
        ensures { self.new ≡ with_column self.old col }
    {
        self.masks[col.quant.0 as usize] |= 1 << col.column;
    }

    /// The columns of both.
    pub fn union(&self, other: &Self) -> Self
        ensures { result ≡ union_columns self.now other.now }
    {
        let mut masks = [0; 12];
        for (n, mask) in self.masks.iter().enumerate() {
            masks[n] = mask | other.masks[n];
        }
        ColSet { masks }
    }

    /// Whether each of its columns is one of the other's.
    pub fn within(&self, other: &Self) -> bool
        ensures { result ≡ is_columns_within self.now other.now }
    {
        for (n, mask) in self.masks.iter().enumerate() {
            if !is_part(*mask, other.masks[n]) {
                return false;
            }
        }
        true
    }
}

#[tactic(auto, using(crate::proofs::SetLaws::within_rules))]
fn is_part(mask: u32, whole: u32) -> bool
    ensures { result ≡ is_within mask whole }
{
    mask & whole == mask
}
