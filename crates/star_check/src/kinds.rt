// The kinds of values, ranges and conditions.
ghost use Rattle.std.specs.Prelude.{◌≡◌, slice_get};
ghost use Rattle.star_model.specs.Kinds.{asks, given, sets_of, one_kind, kind_of, kind_of_range, is_kinded, argument_kinds, have_kinds};

use star_model::rules::{Condition, Flavour, ForAll, Kind, Range, ValueExpr};

// Whether there is a kind, and it is the one that is asked.
fn asks(wanted: Kind, kind: Option<Kind>) -> bool
    ensures { result ≡ asks wanted kind }
{
    match kind {
        None => false,
        Some(kind) => kind == wanted,
    }
}

// The kind, where the parts are as they should be.
fn given(condition: bool, kind: Kind) -> Option<Kind>
    ensures { result ≡ given condition kind }
{
    if condition { Some(kind) } else { None }
}

// The kind of two sets of one kind.
fn sets_of(left: Option<Kind>, right: Option<Kind>) -> Option<Kind>
    ensures { result ≡ sets_of left right }
{
    match (left, right) {
        (Some(Kind::Quants), Some(Kind::Quants)) => Some(Kind::Quants),
        (Some(Kind::Preds), Some(Kind::Preds)) => Some(Kind::Preds),
        _ => None,
    }
}

// Whether both have one kind other than stream.
fn one_kind(left: Option<Kind>, right: Option<Kind>) -> bool
    ensures { result ≡ one_kind left right }
{
    match (left, right) {
        (Some(left), Some(right)) => left == right && left != Kind::Stream,
        _ => false,
    }
}

// The kind of the name at the place, if it has one.
fn kind_at(kinds: &[Kind], place: u8) -> Option<Kind>
    ensures { result ≡ slice_get kinds.now place }
{
    kinds.get(usize::from(place)).copied()
}

// The kind of a value; none where it is not well kinded.
#[tactic(auto, using(star_model::specs::KindsEquations::kind_of_cases))]
fn kind_of(kinds: &[Kind], value: &ValueExpr) -> Option<Kind>
    ensures { result ≡ kind_of kinds.now value.now }
{
    match value {
        ValueExpr::Variable { name: _, place } => kind_at(kinds, *place),
        ValueExpr::WithOrder(t, c) => given(
            asks(Kind::Stream, kind_of(kinds, t.get()))
                && asks(Kind::Cols, kind_of(kinds, c.get())),
            Kind::Stream,
        ),
        ValueExpr::WithSite(t, s) => given(
            asks(Kind::Stream, kind_of(kinds, t.get()))
                && asks(Kind::Site, kind_of(kinds, s.get())),
            Kind::Stream,
        ),
        ValueExpr::WithTemp(t) => given(asks(Kind::Stream, kind_of(kinds, t.get())), Kind::Stream),
        ValueExpr::WithPath(t, c) => given(
            asks(Kind::Stream, kind_of(kinds, t.get()))
                && asks(Kind::Cols, kind_of(kinds, c.get())),
            Kind::Stream,
        ),
        ValueExpr::Tables(t) => given(asks(Kind::Stream, kind_of(kinds, t.get())), Kind::Quants),
        ValueExpr::All => Some(Kind::Quants),
        ValueExpr::NoPreds => Some(Kind::Preds),
        ValueExpr::Inside(s) => given(asks(Kind::Quants, kind_of(kinds, s.get())), Kind::Preds),
        ValueExpr::Crossing(s) => given(asks(Kind::Quants, kind_of(kinds, s.get())), Kind::Preds),
        ValueExpr::Between(s, t) => given(
            asks(Kind::Quants, kind_of(kinds, s.get()))
                && asks(Kind::Quants, kind_of(kinds, t.get())),
            Kind::Preds,
        ),
        ValueExpr::Equalities(p) => given(asks(Kind::Preds, kind_of(kinds, p.get())), Kind::Preds),
        ValueExpr::Indexable(t, x, p) => given(
            asks(Kind::Stream, kind_of(kinds, t.get()))
                && asks(Kind::Index, kind_of(kinds, x.get()))
                && asks(Kind::Preds, kind_of(kinds, p.get())),
            Kind::Preds,
        ),
        ValueExpr::NoCols => Some(Kind::Cols),
        ValueExpr::OrderBy => Some(Kind::Cols),
        ValueExpr::Columns(t, x) => given(
            asks(Kind::Stream, kind_of(kinds, t.get()))
                && asks(Kind::Index, kind_of(kinds, x.get())),
            Kind::Cols,
        ),
        ValueExpr::Keys(p, s) => given(
            asks(Kind::Preds, kind_of(kinds, p.get()))
                && asks(Kind::Quants, kind_of(kinds, s.get())),
            Kind::Cols,
        ),
        ValueExpr::Home(t) => given(asks(Kind::Stream, kind_of(kinds, t.get())), Kind::Site),
        ValueExpr::QuerySite => Some(Kind::Site),
        ValueExpr::Union(v, w) => sets_of(kind_of(kinds, v.get()), kind_of(kinds, w.get())),
        ValueExpr::Minus(v, w) => sets_of(kind_of(kinds, v.get()), kind_of(kinds, w.get())),
        ValueExpr::Meet(v, w) => sets_of(kind_of(kinds, v.get()), kind_of(kinds, w.get())),
    }
}

/// Whether the value is well kinded and has this kind.
pub fn has_kind(kinds: &[Kind], wanted: Kind, value: &ValueExpr) -> bool
    ensures { result ≡ asks wanted (kind_of kinds.now value.now) }
{
    asks(wanted, kind_of(kinds, value))
}

/// The kind of a range's members; none where the range is not well kinded.
pub fn kind_of_range(kinds: &[Kind], range: &Range) -> Option<Kind>
    ensures { result ≡ kind_of_range kinds.now range.now }
{
    match range {
        Range::Indexes(t) => given(asks(Kind::Stream, kind_of(kinds, t)), Kind::Index),
        Range::Sites => Some(Kind::Site),
        Range::Members(s) => given(asks(Kind::Quants, kind_of(kinds, s)), Kind::Quants),
        Range::Each(p) => given(asks(Kind::Preds, kind_of(kinds, p)), Kind::Preds),
    }
}

/// Whether the values of the condition have the kinds that their places ask.
#[tactic(auto, using(star_model::specs::KindsEquations::is_kinded_cases))]
pub fn is_kinded(kinds: &[Kind], condition: &Condition) -> bool
    ensures { result ≡ is_kinded kinds.now condition.now }
{
    match condition {
        Condition::Empty(v) => {
            let kind = kind_of(kinds, v);
            asks(Kind::Quants, kind) || asks(Kind::Preds, kind) || asks(Kind::Cols, kind)
        }
        Condition::Single(v) => asks(Kind::Quants, kind_of(kinds, v)),
        Condition::Same(v, w) => one_kind(kind_of(kinds, v), kind_of(kinds, w)),
        Condition::Within(v, w) => sets_of(kind_of(kinds, v), kind_of(kinds, w)).is_some(),
        Condition::Begins(c, d) => {
            asks(Kind::Cols, kind_of(kinds, c)) && asks(Kind::Cols, kind_of(kinds, d))
        }
        Condition::Not(c) => is_kinded(kinds, c.get()),
        Condition::And(c, d) => is_kinded(kinds, c.get()) && is_kinded(kinds, d.get()),
        Condition::Or(c, d) => is_kinded(kinds, c.get()) && is_kinded(kinds, d.get()),
    }
}

/// The kinds of an operator's arguments, without its inputs.
pub fn argument_kinds(flavour: Flavour) -> &'static [Kind]
    ensures { result.now ≡ argument_kinds flavour }
{
    match flavour {
        Flavour::AccessHeap => &[Kind::Stream, Kind::Preds],
        Flavour::AccessIndex => &[Kind::Stream, Kind::Index, Kind::Preds],
        Flavour::Get => &[Kind::Stream, Kind::Preds],
        Flavour::Filter => &[Kind::Preds],
        Flavour::Sort => &[Kind::Cols],
        Flavour::Store => &[Kind::Cols],
        Flavour::Ship => &[Kind::Site],
        Flavour::Probe => &[Kind::Cols, Kind::Preds],
        Flavour::JoinNl => &[Kind::Preds],
        Flavour::JoinMerge => &[Kind::Preds, Kind::Preds],
        Flavour::JoinHash => &[Kind::Preds, Kind::Preds],
        Flavour::Intersect => &[],
    }
}

/// Whether each value that has a place has the kind that is asked there.
pub fn have_kinds(kinds: &[Kind], wanted: &[Kind], values: &[ValueExpr]) -> bool
    ensures { result ≡ have_kinds kinds.now wanted.now values.now }
{
    match wanted {
        [] => true,
        [kind, wanted @ ..] => match values {
            [] => true,
            [value, values @ ..] => {
                has_kind(kinds, *kind, value) && have_kinds(kinds, wanted, values)
            }
        },
    }
}
