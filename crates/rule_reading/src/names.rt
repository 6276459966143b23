// Names that aren't reserved.
ghost use Rattle.std.specs.Prelude.{◌≡◌};
ghost use Rattle.star_model.specs.Names.{is_among};
ghost use Rattle.rule_grammar.specs.RuleWords.{free_word};
ghost use Rattle.spelling.specs.Answers.{Answers};
ghost use Rattle.star_model.specs.WellFormedRules.{reserved_words, words_of_version_2, is_reserved};
ghost use Rattle.spelling.specs.Tables.{listed};

use spelling::{Cursor, Unread};
use star_model::lists::Name;
use std::alloc::Global;

// No STAR, parameter or for-all value has such a name.
const RESERVED: [&[u8]; 62] = [
    b"stream",
    b"quants",
    b"preds",
    b"cols",
    b"site",
    b"index",
    b"ACCESS_HEAP",
    b"ACCESS_INDEX",
    b"GET",
    b"FILTER",
    b"SORT",
    b"STORE",
    b"SHIP",
    b"PROBE",
    b"JOIN_NL",
    b"JOIN_MERGE",
    b"JOIN_HASH",
    b"Glue",
    b"cost",
    b"rescan",
    b"star",
    b"give",
    b"for",
    b"in",
    b"when",
    b"if",
    b"then",
    b"else",
    b"min",
    b"max",
    b"order",
    b"temp",
    b"path",
    b"tables",
    b"all",
    b"none",
    b"inside",
    b"crossing",
    b"between",
    b"equalities",
    b"indexable",
    b"nocols",
    b"orderby",
    b"columns",
    b"keys",
    b"home",
    b"querysite",
    b"union",
    b"minus",
    b"meet",
    b"indexes",
    b"sites",
    b"members",
    b"each",
    b"empty",
    b"single",
    b"same",
    b"within",
    b"begins",
    b"not",
    b"and",
    b"or",
];

// Nor such a one in version 2.
const RESERVED_IN_VERSION_2: [&[u8]; 8] = [
    b"version",
    b"selectivity",
    b"per",
    b"EQ_CONST",
    b"EQ_COLUMN",
    b"NE",
    b"LESS",
    b"INTERSECT",
];

fn is_among(names: &[&[u8]], name: &[u8]) -> bool
    ensures { result ≡ is_among (listed names.now) name.now }
{
    names.iter().any(|other| name == *other)
}

fn is_reserved_in_each_version(name: &[u8]) -> bool
    ensures { result ≡ is_among reserved_words name.now }
{
    is_among(&RESERVED, name)
}

fn is_reserved_in_version_2(name: &[u8]) -> bool
    ensures { result ≡ is_among words_of_version_2 name.now }
{
    is_among(&RESERVED_IN_VERSION_2, name)
}

/// Whether no STAR, parameter or for-all value of a rule file of this version has such a name.
pub fn is_reserved(version: u8, name: &[u8]) -> bool
    ensures { result ≡ is_reserved version name.now }
{
    is_reserved_in_each_version(name) || (version == 2 && is_reserved_in_version_2(name))
}

/// The next lexeme, where it is a word that isn't reserved in rule files of this version.
#[tactic(auto, unfolding(rule_grammar::specs::RuleWords::free_word))]
pub fn free_name(alloc: Global, version: u8, cursor: &mut Cursor<'_>) -> Result<Name, Unread>
    ensures { Answers (free_word version cursor.old) result cursor.new }
{
    let word = cursor.word().ok_or(Unread::Strange)?;
    if is_reserved(version, word) {
        return Err(Unread::Strange);
    }
    Ok(Name::from_slice(alloc, word)?)
}
