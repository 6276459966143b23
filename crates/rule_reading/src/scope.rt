// The names that may be used in a part of a rule.
ghost use Rattle.std.specs.Prelude.{◌≡◌};
ghost use Rattle.star_model.specs.Names.{place_of};
ghost use Rattle.star_model.specs.WellFormedRules.{place_among};
ghost use Rattle.rule_grammar.specs.StarReading.{names_of, with_ranges};

use star_model::rules::{ForAll, Param};
use std::marker::Model;

/// The names that may be used in a part of a rule: the STAR's parameters, and behind them the names
/// of for-all clauses. And the version of the rule file.
#[derive(Drop)]
pub struct Scope<'a> {
    version: u8,
    params: &'a [Param],
    ranges: &'a [ForAll],
}

impl<'a> Model for Scope<'a> {
    ghost use Rattle.star_model.specs.WellFormedRules.{Scope as Names};
    ghost use Rattle.rule_grammar.specs.StarReading.{names_of, with_ranges};

    ghost Value = { Names };

    ghost view = { λ s. with_ranges (names_of s.version s.params.now) s.ranges.now };
}

impl<'a> Scope<'a> {
    pub fn new(version: u8, params: &'a [Param], ranges: &'a [ForAll]) -> Scope<'a>
        ensures { result ≡ with_ranges (names_of version params.now) ranges.now }
    {
        Scope {
            version,
            params,
            ranges,
        }
    }

    /// The version of the rule file.
    pub fn version(&self) -> u8
        ensures { result ≡ self.now.version }
    {
        self.version
    }

    // The position of a name.
    fn position(&self, name: &[u8]) -> Option<usize>
        ensures { result ≡ place_of name.now self.now.names }
    {
        let params = self.params.iter().map(|param| param.name.as_slice());
        let ranges = self.ranges.iter().map(|range| range.name.as_slice());
        params.chain(ranges).position(|other| name == other)
    }

    /// The place of a name, and 255 where it isn't one of the first 255.
    pub fn place(&self, name: &[u8]) -> u8
        ensures { result ≡ place_among self.now.names name.now }
    {
        let place = self.position(name).unwrap_or(255);
        place.min(255) as u8
    }
}
