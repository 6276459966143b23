// Making values of their parts.
ghost use Rattle.std.specs.Prelude.{◌≡◌};
ghost use Rattle.star_model.specs.ValueCases.{WithTemp, Indexable};
ghost use Rattle.rule_grammar.specs.ValueReading.{constant_of, unary_of, binary_of, valued_of};

use rule_grammar::words::{BinaryHead, ConstantHead, UnaryHead, ValuedHead};
use sqlite_items::Boxed;
use star_model::rules::ValueExpr;

pub fn constant(head: ConstantHead) -> ValueExpr
    ensures { result ≡ constant_of head }
{
    match head {
        ConstantHead::All => ValueExpr::All,
        ConstantHead::NoPreds => ValueExpr::NoPreds,
        ConstantHead::NoCols => ValueExpr::NoCols,
        ConstantHead::OrderBy => ValueExpr::OrderBy,
        ConstantHead::QuerySite => ValueExpr::QuerySite,
    }
}

#[tactic(auto, using(star_model::specs::ValueCases::valueCases_made))]
pub fn unary(head: UnaryHead, v: Boxed<ValueExpr>) -> ValueExpr
    ensures { result ≡ unary_of head v }
{
    match head {
        UnaryHead::Tables => ValueExpr::Tables(v),
        UnaryHead::Inside => ValueExpr::Inside(v),
        UnaryHead::Crossing => ValueExpr::Crossing(v),
        UnaryHead::Equalities => ValueExpr::Equalities(v),
        UnaryHead::Home => ValueExpr::Home(v),
    }
}

#[tactic(auto, using(star_model::specs::ValueCases::valueCases_made))]
pub fn binary(head: BinaryHead, v: Boxed<ValueExpr>, w: Boxed<ValueExpr>) -> ValueExpr
    ensures { result ≡ binary_of head v w }
{
    match head {
        BinaryHead::Between => ValueExpr::Between(v, w),
        BinaryHead::Columns => ValueExpr::Columns(v, w),
        BinaryHead::Keys => ValueExpr::Keys(v, w),
        BinaryHead::Union => ValueExpr::Union(v, w),
        BinaryHead::Minus => ValueExpr::Minus(v, w),
        BinaryHead::Meet => ValueExpr::Meet(v, w),
    }
}

#[tactic(auto, using(star_model::specs::ValueCases::valueCases_made))]
pub fn indexable(
    stream: Boxed<ValueExpr>,
    index: Boxed<ValueExpr>,
    preds: Boxed<ValueExpr>,
) -> ValueExpr
    ensures { result ≡ Indexable stream index preds }
{
    ValueExpr::Indexable(stream, index, preds)
}

/// The stream with a requirement that has a value.
#[tactic(auto, using(star_model::specs::ValueCases::valueCases_made))]
pub fn with_value(head: ValuedHead, stream: Boxed<ValueExpr>, v: Boxed<ValueExpr>) -> ValueExpr
    ensures { result ≡ valued_of head stream v }
{
    match head {
        ValuedHead::Order => ValueExpr::WithOrder(stream, v),
        ValuedHead::Site => ValueExpr::WithSite(stream, v),
        ValuedHead::Path => ValueExpr::WithPath(stream, v),
    }
}

/// The stream with the requirement of a temporary.
#[tactic(auto, using(star_model::specs::ValueCases::valueCases_made))]
pub fn with_temp(stream: Boxed<ValueExpr>) -> ValueExpr
    ensures { result ≡ WithTemp stream }
{
    ValueExpr::WithTemp(stream)
}
