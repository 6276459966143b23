// How operators, costs, kinds and classes of predicates are written in rule files, derivations and
// messages.

ghost use Rattle.std.specs.Prelude.{◌≡◌};
ghost use Rattle.star_model.specs.FlavourWords.{flavour_word, which_word, kind_word, class_word, flavour_of, flavour_in, is_flavour_of, kind_of_word, class_of_word};

use crate::rules::{Class, Flavour, Kind, Which};

/// The operators in the order of their table.
pub const FLAVOURS: [Flavour; 12] = [
    Flavour::AccessHeap,
    Flavour::AccessIndex,
    Flavour::Get,
    Flavour::Filter,
    Flavour::Sort,
    Flavour::Store,
    Flavour::Ship,
    Flavour::Probe,
    Flavour::JoinNl,
    Flavour::JoinMerge,
    Flavour::JoinHash,
    Flavour::Intersect,
];

const CLASSES: [Class; 4] = [Class::EqConst, Class::EqColumn, Class::Ne, Class::Less];

const KINDS: [Kind; 6] = [
    Kind::Stream,
    Kind::Quants,
    Kind::Preds,
    Kind::Cols,
    Kind::Site,
    Kind::Index,
];

/// The word for an operator.
pub fn flavour_word(flavour: Flavour) -> &'static str
    ensures { result.now ≡ flavour_word flavour }
{
    match flavour {
        Flavour::AccessHeap => "ACCESS_HEAP",
        Flavour::AccessIndex => "ACCESS_INDEX",
        Flavour::Get => "GET",
        Flavour::Filter => "FILTER",
        Flavour::Sort => "SORT",
        Flavour::Store => "STORE",
        Flavour::Ship => "SHIP",
        Flavour::Probe => "PROBE",
        Flavour::JoinNl => "JOIN_NL",
        Flavour::JoinMerge => "JOIN_MERGE",
        Flavour::JoinHash => "JOIN_HASH",
        Flavour::Intersect => "INTERSECT",
    }
}

/// The operator that a word names.
#[tactic(auto, unfolding(crate::specs::FlavourWords::flavour_of))]
pub fn flavour_of(word: &[u8]) -> Option<Flavour>
    ensures { result ≡ flavour_of word.now }
{
    FLAVOURS
        .iter()
        .copied()
        .find(|flavour| flavour_word(*flavour).as_bytes() == word)
}

/// Whether rule files of this version have the operator.
pub fn is_flavour_of(version: u8, flavour: Flavour) -> bool
    ensures { result ≡ is_flavour_of version flavour }
{
    match flavour {
        Flavour::Intersect => version == 2,
        _ => true,
    }
}

/// The operator that a word names in rule files of this version.
#[tactic(auto, unfolding(crate::specs::FlavourWords::flavour_in))]
pub fn flavour_in(version: u8, word: &[u8]) -> Option<Flavour>
    ensures { result ≡ flavour_in version word.now }
{
    let flavour = flavour_of(word)?;
    if is_flavour_of(version, flavour) {
        Some(flavour)
    } else {
        None
    }
}

/// The word for a cost.
pub fn which_word(which: Which) -> &'static str
    ensures { result.now ≡ which_word which }
{
    match which {
        Which::Cost => "cost",
        Which::Rescan => "rescan",
    }
}

/// The word for a kind.
pub fn kind_word(kind: Kind) -> &'static str
    ensures { result.now ≡ kind_word kind }
{
    match kind {
        Kind::Stream => "stream",
        Kind::Quants => "quants",
        Kind::Preds => "preds",
        Kind::Cols => "cols",
        Kind::Site => "site",
        Kind::Index => "index",
    }
}

/// The kind that a word names.
#[tactic(auto, unfolding(crate::specs::FlavourWords::kind_of_word))]
pub fn kind_of(word: &[u8]) -> Option<Kind>
    ensures { result ≡ kind_of_word word.now }
{
    KINDS
        .iter()
        .copied()
        .find(|kind| kind_word(*kind).as_bytes() == word)
}

/// The word for a class of predicates.
pub fn class_word(class: Class) -> &'static str
    ensures { result.now ≡ class_word class }
{
    match class {
        Class::EqConst => "EQ_CONST",
        Class::EqColumn => "EQ_COLUMN",
        Class::Ne => "NE",
        Class::Less => "LESS",
    }
}

/// The class that a word names.
#[tactic(auto, unfolding(crate::specs::FlavourWords::class_of_word))]
pub fn class_of(word: &[u8]) -> Option<Class>
    ensures { result ≡ class_of_word word.now }
{
    CLASSES
        .iter()
        .copied()
        .find(|class| class_word(*class).as_bytes() == word)
}
