// Making conditions of their parts.
ghost use Rattle.std.specs.Prelude.{◌≡◌};
ghost use Rattle.star_model.specs.ConditionCases.{Not};
ghost use Rattle.rule_grammar.specs.ConditionReading.{unary_of, binary_of, junction_of};

use rule_grammar::words::{BinaryTest, Junction, UnaryTest};
use sqlite_items::Boxed;
use star_model::rules::{Condition, ValueExpr};

pub fn unary(test: UnaryTest, v: ValueExpr) -> Condition
    ensures { result ≡ unary_of test v }
{
    match test {
        UnaryTest::Empty => Condition::Empty(v),
        UnaryTest::Single => Condition::Single(v),
    }
}

pub fn binary(test: BinaryTest, v: ValueExpr, w: ValueExpr) -> Condition
    ensures { result ≡ binary_of test v w }
{
    match test {
        BinaryTest::Same => Condition::Same(v, w),
        BinaryTest::Within => Condition::Within(v, w),
        BinaryTest::Begins => Condition::Begins(v, w),
    }
}

#[tactic(auto, using(star_model::specs::ConditionCases::conditionCases_made))]
pub fn negation(c: Boxed<Condition>) -> Condition
    ensures { result ≡ Not c }
{
    Condition::Not(c)
}

#[tactic(auto, using(star_model::specs::ConditionCases::conditionCases_made))]
pub fn join(junction: Junction, c: Boxed<Condition>, d: Boxed<Condition>) -> Condition
    ensures { result ≡ junction_of junction c d }
{
    match junction {
        Junction::And => Condition::And(c, d),
        Junction::Or => Condition::Or(c, d),
    }
}
