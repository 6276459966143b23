// Rows of plans.

ghost use Rattle.std.specs.Prelude.{◌≡◌, ◌<◌, ◌≤◌, ◌↔◌, [], ◌∷◌, ◌++◌, length, map, nat_eq, option_copied, IsOk, IfErr, OnOk, OnErr};
ghost use Rattle.std.specs.List.{find};
ghost use Rattle.star_model.specs.Limits.{most_quantifiers};
ghost use Rattle.star_model.specs.Answers.{position_of};
ghost use Rattle.listed_rows.specs.Picks.{whole};
ghost use Rattle.row_printing.specs.Picks.{pair_of};

use arrayvec::ArrayVec;
use row_steps::Env;
use star_model::columns::Quant;
use std::marker::Model;

/// A row of a quantifier's table, by its number from 0.
#[derive(Clone, Copy, Debug, Default, PartialEq, Eq)]
pub struct Pick {
    pub quant: Quant,
    pub row: u32,
}

/// A row of a plan: what it picks for each of the plan's quantifiers, in query order.
#[derive(Debug, Drop)]
pub struct Row {
    picks: ArrayVec<Pick, 12>,
}

impl Model for Row {
    ghost use Rattle.std.specs.Prelude.{map};
    ghost use Rattle.star_model.specs.Answers.{Assignment};
    ghost use Rattle.row_printing.specs.Picks.{pair_of};

    ghost Value = { Assignment };

    ghost view = { λ r. map pair_of r.picks.items };
}

impl Row {
    /// The row that picks nothing.
    pub fn new() -> Row
        ensures { result ≡ [] }
    {
        Row {
            picks: ArrayVec::new(),
        }
    }

    pub fn len(&self) -> usize
        ensures { result ≡ length self.now }
    {
        self.picks.len()
    }

    pub fn as_slice(&self) -> &[Pick]
        ensures value { map pair_of result.now ≡ self.now }
        ensures room { length result.now ≤ most_quantifiers }
    {
        self.picks.as_slice()
    }

    /// Adds the pick at the end, or gives it back where there are 12.
    pub fn try_push(&mut self, pick: Pick) -> Result<(), Pick>
        ensures variant { IsOk result ↔ (length self.old < most_quantifiers) }
        ensures ok { OnOk result (self.new ≡ self.old ++ pair_of pick ∷ []) }
        ensures err { OnErr result (self.new ≡ self.old) }
        ensures given_back { IfErr result (λ p. p ≡ pick) }
    {
        if self.picks.len() < 12 {
            self.picks.push(pick);
            Ok(())
        } else {
            Err(pick)
        }
    }

    /// The number of the row that it picks for a quantifier, 0 where it picks none.
    pub fn position(&self, quant: Quant) -> u32
        ensures { result ≡ position_of self.now quant.0 }
    {
        position_in(self.picks.as_slice(), quant)
    }
}

// The first pick of the quantifier.
fn pick_of(picks: &[Pick], quant: Quant) -> Option<&Pick>
    ensures { option_copied result ≡ find (λ p. nat_eq p.quant.0 quant.0) picks.now }
{
    picks.iter().find(|pick| pick.quant == quant)
}

#[tactic(auto, using(crate::proofs::RowReading::position_is))]
fn position_in(picks: &[Pick], quant: Quant) -> u32
    ensures { result ≡ position_of (map pair_of picks.now) quant.0 }
{
    match pick_of(picks, quant) {
        Some(pick) => pick.row,
        None => 0,
    }
}

/// The environment of the row, with row 0 for each other quantifier.
pub(crate) fn whole(row: &Row) -> Env
    ensures { result ≡ whole row.now }
{
    let mut env = Env::zeros();
    for quant in 0..12u8 {
        env = env.with(quant, row.position(Quant(quant)));
    }
    env
}
