// Bindings of one name more. None of it takes memory.

ghost use Rattle.std.specs.Prelude.{◌≡◌, ◌<◌, ◌++◌, ◌∷◌, [], length};
ghost use Rattle.star_model.specs.Limits.{most_bindings};

use star_model::derivations::ForAllValues;
use star_model::values::RuleValue;
use star_value::Env;

/// The bindings with one more.
pub fn with_value(env: &Env, value: RuleValue) -> Env
    requires { length env.now < most_bindings }
    ensures { result ≡ env.now ++ value ∷ [] }
{
    let mut more = env.copied();
    let pushed = more.try_push(value);
    prove!(pushed.is_ok());
    more
}

/// The numbers of for-all values with one more.
pub fn with_number(numbers: &ForAllValues, number: u32) -> ForAllValues
    requires { length numbers.now < 2 }
    ensures { result ≡ numbers.now ++ number ∷ [] }
{
    let mut more = numbers.copied();
    let pushed = more.try_push(number);
    prove!(pushed.is_ok());
    more
}
