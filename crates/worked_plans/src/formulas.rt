// What the definitions say of the table of formulas.
ghost use Rattle.worked_plans.specs.Claims.{AreWorth, Pass, Offend};
ghost use Rattle.worked_plans.specs.Formulas as row;

/// The values of formulas, cut at 10^18.
pub fn values_of_formulas()
    ensures { AreWorth row.worth }
{}

/// Formulas that pass the monotone check.
pub fn passing_formulas()
    ensures { Pass row.worth }
{}

/// Formulas that don't pass it, each with the first node that offends.
pub fn offending_formulas()
    ensures { Offend row.offending }
{}
