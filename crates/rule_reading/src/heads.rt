// What words stand for at the front of values, requirements, ranges and conditions.
ghost use Rattle.std.specs.Prelude.{◌≡◌};
ghost use Rattle.rule_grammar.specs.ValueReading.{value_head, requirement_head, range_head};
ghost use Rattle.rule_grammar.specs.ConditionReading.{condition_head};

use rule_grammar::words::{
    BinaryHead, BinaryTest, ConditionHead, ConstantHead, Junction, RangeHead, RequirementHead,
    UnaryHead, UnaryTest, ValueHead, ValuedHead,
};
use spelling::found_in;

const VALUES: [(&[u8], ValueHead); 17] = [
    (b"all", ValueHead::Constant(ConstantHead::All)),
    (b"none", ValueHead::Constant(ConstantHead::NoPreds)),
    (b"nocols", ValueHead::Constant(ConstantHead::NoCols)),
    (b"orderby", ValueHead::Constant(ConstantHead::OrderBy)),
    (b"querysite", ValueHead::Constant(ConstantHead::QuerySite)),
    (b"tables", ValueHead::Unary(UnaryHead::Tables)),
    (b"inside", ValueHead::Unary(UnaryHead::Inside)),
    (b"crossing", ValueHead::Unary(UnaryHead::Crossing)),
    (b"equalities", ValueHead::Unary(UnaryHead::Equalities)),
    (b"home", ValueHead::Unary(UnaryHead::Home)),
    (b"between", ValueHead::Binary(BinaryHead::Between)),
    (b"columns", ValueHead::Binary(BinaryHead::Columns)),
    (b"keys", ValueHead::Binary(BinaryHead::Keys)),
    (b"union", ValueHead::Binary(BinaryHead::Union)),
    (b"minus", ValueHead::Binary(BinaryHead::Minus)),
    (b"meet", ValueHead::Binary(BinaryHead::Meet)),
    (b"indexable", ValueHead::Indexable),
];

const REQUIREMENTS: [(&[u8], RequirementHead); 4] = [
    (b"order", RequirementHead::Valued(ValuedHead::Order)),
    (b"site", RequirementHead::Valued(ValuedHead::Site)),
    (b"path", RequirementHead::Valued(ValuedHead::Path)),
    (b"temp", RequirementHead::Temp),
];

const RANGES: [(&[u8], RangeHead); 4] = [
    (b"indexes", RangeHead::Indexes),
    (b"sites", RangeHead::Sites),
    (b"members", RangeHead::Members),
    (b"each", RangeHead::Each),
];

const CONDITIONS: [(&[u8], ConditionHead); 8] = [
    (b"empty", ConditionHead::Unary(UnaryTest::Empty)),
    (b"single", ConditionHead::Unary(UnaryTest::Single)),
    (b"same", ConditionHead::Binary(BinaryTest::Same)),
    (b"within", ConditionHead::Binary(BinaryTest::Within)),
    (b"begins", ConditionHead::Binary(BinaryTest::Begins)),
    (b"not", ConditionHead::Not),
    (b"and", ConditionHead::Junction(Junction::And)),
    (b"or", ConditionHead::Junction(Junction::Or)),
];

#[tactic(auto, unfolding(rule_grammar::specs::ValueReading::value_head))]
pub fn value_head(word: &[u8]) -> ValueHead
    ensures { result ≡ value_head word.now }
{
    found_in(&VALUES, word, ValueHead::Other)
}

#[tactic(auto, unfolding(rule_grammar::specs::ValueReading::requirement_head))]
pub fn requirement_head(word: &[u8]) -> RequirementHead
    ensures { result ≡ requirement_head word.now }
{
    found_in(&REQUIREMENTS, word, RequirementHead::Other)
}

#[tactic(auto, unfolding(rule_grammar::specs::ValueReading::range_head))]
pub fn range_head(word: &[u8]) -> RangeHead
    ensures { result ≡ range_head word.now }
{
    found_in(&RANGES, word, RangeHead::Other)
}

#[tactic(auto, unfolding(rule_grammar::specs::ConditionReading::condition_head))]
pub fn condition_head(word: &[u8]) -> ConditionHead
    ensures { result ≡ condition_head word.now }
{
    found_in(&CONDITIONS, word, ConditionHead::Other)
}
