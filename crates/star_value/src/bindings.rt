// The values of a reference's arguments, and the condition of an alternative. None of it takes
// memory.

ghost use Rattle.std.specs.Prelude.{◌≡◌, ◌≤◌, length};
ghost use Rattle.star_model.specs.Limits.{most_bindings};
ghost use Rattle.star_model.specs.Expected.{values_of, meets};
ghost use Rattle.star_model.specs.WellFormed.{WellFormedQuery};

use crate::conditions::holds;
use crate::env::Env;
use crate::meaning::value;
use star_model::query::Query;
use star_model::rules::{Condition, ValueExpr};

/// The values of a reference's arguments, as bindings of the parameters of the STAR to which it
/// refers.
pub fn values(args: &[ValueExpr], env: &Env, query: &Query) -> Env
    requires query { WellFormedQuery query.now }
    requires few { length args.now ≤ most_bindings }
    ensures { result ≡ values_of query.now env.now args.now }
{
    let mut values = Env::new();
    for (i, arg) in args.iter().enumerate() {
        let pushed = values.try_push(value(arg, env, query));
        prove!(pushed.is_ok());
    }
    values
}

/// Whether the alternative's condition holds under these bindings. Without a condition it does.
pub fn meets(condition: &Option<Condition>, env: &Env, query: &Query) -> bool
    requires { WellFormedQuery query.now }
    ensures { result ≡ meets query.now env.now condition.now }
{
    match condition {
        None => true,
        Some(condition) => holds(condition, env, query),
    }
}
