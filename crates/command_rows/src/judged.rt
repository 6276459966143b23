// What the calls over texts answer, and the numbers of statuses.
ghost use Rattle.star_model.specs.WellFormed.{WellFormedCatalogue};

use crate::runs::Texts;
use star_model::catalogue::Catalogue;
use stars_core::{
    Answer, Refusal, Status, check_text, frontier_texts, judge_catalogue, judge_query, plan_texts,
    verify_texts,
};
use std::alloc::{AllocError, Global};

// How a call over texts ends, and its text or line.
fn answered(alloc: Global, answer: Result<Answer, Refusal>) -> Result<String, AllocError> {
    match answer {
        Ok(Answer { ending, text }) => {
            let text = String::from_utf8_lossy(alloc, text.as_slice())?;
            format!(in alloc; "{ending:?}: {text}")
        }
        Err(refusal) => {
            let status = refusal.status();
            let line = refusal.line();
            format!(in alloc; "{status:?}: {line}")
        }
    }
}

/// How the planning of the texts ends, and its text or line.
pub fn planned(alloc: Global, texts: Texts<'_>) -> Result<String, AllocError> {
    let rules = texts.rules.as_bytes();
    let catalogue = texts.catalogue.as_bytes();
    let query = texts.query.as_bytes();
    answered(alloc, plan_texts(alloc, rules, catalogue, query))
}

/// How the call that lists the frontier of the texts ends, and its text or line.
pub fn listed(alloc: Global, texts: Texts<'_>) -> Result<String, AllocError> {
    let rules = texts.rules.as_bytes();
    let catalogue = texts.catalogue.as_bytes();
    let query = texts.query.as_bytes();
    answered(alloc, frontier_texts(alloc, rules, catalogue, query))
}

/// How the call that checks a rule file ends, and its text or line.
pub fn checked(alloc: Global, rules: &str) -> Result<String, AllocError> {
    answered(alloc, check_text(alloc, rules.as_bytes()))
}

/// How the call that verifies a derivation over the texts ends, and its text or line.
pub fn verified(alloc: Global, texts: Texts<'_>, derivation: &str) -> Result<String, AllocError> {
    let rules = texts.rules.as_bytes();
    let catalogue = texts.catalogue.as_bytes();
    let query = texts.query.as_bytes();
    let derivation = derivation.as_bytes();
    answered(
        alloc,
        verify_texts(alloc, rules, catalogue, query, derivation),
    )
}

/// The first line of what planning answers: that with the numbers of the plan, or that of the fault.
pub fn first_line(alloc: Global, texts: Texts<'_>) -> Result<String, AllocError> {
    let told = planned(alloc, texts)?;
    let (_, text) = told.split_once(": ").unwrap_or(("", told.as_str()));
    String::from_str(alloc, text.lines().next().unwrap_or("no line"))
}

/// `accepted`, or the line of the fault of a catalogue.
pub fn catalogue(alloc: Global, text: &str) -> Result<String, AllocError> {
    match judge_catalogue(alloc, text.as_bytes()) {
        Ok(_) => String::from_str(alloc, "accepted"),
        Err(refusal) => String::from_str(alloc, refusal.line().trim_end()),
    }
}

fn query_over(alloc: Global, catalogue: &Catalogue, text: &str) -> Result<String, AllocError>
    requires { WellFormedCatalogue catalogue.now }
{
    match judge_query(alloc, catalogue, text.as_bytes()) {
        Ok(_) => String::from_str(alloc, "accepted"),
        Err(refusal) => String::from_str(alloc, refusal.line().trim_end()),
    }
}

/// `accepted`, or the line of the fault of a query over a catalogue.
pub fn query(alloc: Global, catalogue: &str, text: &str) -> Result<String, AllocError> {
    match judge_catalogue(alloc, catalogue.as_bytes()) {
        Ok(catalogue) => query_over(alloc, &catalogue, text),
        Err(refusal) => String::from_str(alloc, refusal.line()),
    }
}

/// The status with a number.
pub fn status(alloc: Global, number: &str) -> Result<String, AllocError> {
    let statuses = [
        Status::Done,
        Status::NoPlan,
        Status::Usage,
        Status::RulesRefused,
        Status::CatalogueRefused,
        Status::QueryRefused,
        Status::TableRefused,
        Status::ReadFault,
        Status::WriteFault,
        Status::Memory,
        Status::NotDerived,
        Status::DerivationRefused,
        Status::SessionRefused,
        Status::CertificateRefused,
    ];
    let mut told = String::new(alloc);
    for status in statuses {
        if format!(in alloc; "{}", status.code())?.as_str() == number {
            told.push_str(format!(in alloc; "{status:?}")?.as_str())?;
        }
    }
    Ok(told)
}
