// What the definitions say of the table of kinds.
ghost use Rattle.worked_plans.specs.Claims.{HaveKinds, RangeOverKinds, AreKinded};
ghost use Rattle.worked_plans.specs.Kinds as row;

/// The kinds of values.
pub fn kinds_of_values()
    ensures { HaveKinds row.bound row.values }
{}

/// The kinds of the members of ranges.
pub fn kinds_of_ranges()
    ensures { RangeOverKinds row.bound row.ranges }
{}

/// Which conditions are well kinded.
pub fn kinds_in_conditions()
    ensures { AreKinded row.bound row.conditions }
{}
