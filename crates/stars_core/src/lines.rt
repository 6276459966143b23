// The lines that tell the faults of a text.
ghost use Rattle.std.specs.Prelude.{◌≡◌, IfOk, Some, string_bytes};
ghost use Rattle.stars_core.specs.Lines.{prefix, too_long_line, lexical_line, statement_line, unknown_line, twice_line, limit_word, limit_line, clash_line, catalogue_line, query_line, far_down_line, derivation_line, not_derived_line};

use crate::TextKind;
use catalogue::CatFault;
use derivation_print::DerivFault;
use query_graph::QueryFault;
use star_model::faults::LimitKind;
use std::alloc::{AllocError, Global};

fn prefix(kind: TextKind) -> &'static str
    ensures { result.now ≡ prefix kind }
{
    match kind {
        TextKind::Rules => "rules: ",
        TextKind::Catalogue => "catalogue: ",
        TextKind::Query => "query: ",
        TextKind::Derivation => "derivation: ",
    }
}

pub fn too_long_line(alloc: Global, kind: TextKind) -> Result<String, AllocError>
    ensures { IfOk result (λ line. string_bytes line ≡ too_long_line kind) }
{
    let prefix = prefix(kind);
    format!(in alloc; "{prefix}longer than 1048576 bytes\n")
}

pub fn lexical_line(alloc: Global, kind: TextKind, offset: u32) -> Result<String, AllocError>
    ensures { IfOk result (λ line. string_bytes line ≡ lexical_line kind offset) }
{
    let prefix = prefix(kind);
    format!(in alloc; "{prefix}no token at byte {offset}\n")
}

// What is said of a statement, by its number from 1.
pub fn statement_line(
    alloc: Global,
    kind: TextKind,
    statement: u32,
    said: &str,
) -> Result<String, AllocError>
    ensures { IfOk result (λ line. string_bytes line ≡ statement_line kind statement said.now) }
{
    let prefix = prefix(kind);
    let mut line = format!(in alloc; "{prefix}statement {statement} ")?;
    line.push_str(said)?;
    line.push_str("\n")?;
    Ok(line)
}

pub fn unknown_line(alloc: Global, kind: TextKind, statement: u32) -> Result<String, AllocError>
    ensures { IfOk result (λ line. string_bytes line ≡ unknown_line kind statement) }
{
    let prefix = prefix(kind);
    format!(in alloc; "{prefix}unknown name in statement {statement}\n")
}

pub fn twice_line(alloc: Global, kind: TextKind, statement: u32) -> Result<String, AllocError>
    ensures { IfOk result (λ line. string_bytes line ≡ twice_line kind statement) }
{
    let prefix = prefix(kind);
    format!(in alloc; "{prefix}name defined twice in statement {statement}\n")
}

fn limit_word(what: LimitKind) -> &'static str
    ensures { result.now ≡ limit_word what }
{
    match what {
        LimitKind::Number => "Number",
        LimitKind::Name => "Name",
        LimitKind::File => "File",
        LimitKind::Params => "Params",
        LimitKind::Alternatives => "Alternatives",
        LimitKind::ForAlls => "ForAlls",
        LimitKind::Stars => "Stars",
        LimitKind::Depth => "Depth",
        LimitKind::Formula => "Formula",
        LimitKind::Sites => "Sites",
        LimitKind::Tables => "Tables",
        LimitKind::Columns => "Columns",
        LimitKind::Indexes => "Indexes",
        LimitKind::IndexColumns => "IndexColumns",
        LimitKind::Quantifiers => "Quantifiers",
        LimitKind::Predicates => "Predicates",
        LimitKind::Select => "Select",
        LimitKind::OrderBy => "OrderBy",
    }
}

pub fn limit_line(
    alloc: Global,
    kind: TextKind,
    statement: u32,
    what: LimitKind,
) -> Result<String, AllocError>
    ensures { IfOk result (λ line. string_bytes line ≡ limit_line kind statement what) }
{
    let prefix = prefix(kind);
    let word = limit_word(what);
    format!(in alloc; "{prefix}limit {word} in statement {statement}\n")
}

fn clash_line(alloc: Global, predicate: u32) -> Result<String, AllocError>
    ensures { IfOk result (λ line. string_bytes line ≡ clash_line predicate) }
{
    let prefix = prefix(TextKind::Query);
    let mut line = format!(in alloc; "{prefix}predicate {predicate}")?;
    line.push_str(" compares two types")?;
    line.push_str("\n")?;
    Ok(line)
}

/// The line of a fault of a catalogue. Want of memory is told as itself.
pub fn catalogue_line(alloc: Global, fault: CatFault) -> Result<String, AllocError>
    ensures { IfOk result (λ line. catalogue_line fault ≡ Some (string_bytes line)) }
{
    let kind = TextKind::Catalogue;
    match fault {
        CatFault::Lexical(offset) => lexical_line(alloc, kind, offset),
        CatFault::TooDeep(statement) => statement_line(alloc, kind, statement, "is too deep"),
        CatFault::Syntax(statement) => statement_line(alloc, kind, statement, "is not understood"),
        CatFault::Unknown(statement) => unknown_line(alloc, kind, statement),
        CatFault::Twice(statement) => twice_line(alloc, kind, statement),
        CatFault::Limit(statement, what) => limit_line(alloc, kind, statement, what),
        CatFault::Memory => Err(AllocError),
    }
}

/// The line of a fault of a query. Want of memory is told as itself.
pub fn query_line(alloc: Global, fault: QueryFault) -> Result<String, AllocError>
    ensures { IfOk result (λ line. query_line fault ≡ Some (string_bytes line)) }
{
    let kind = TextKind::Query;
    match fault {
        QueryFault::Lexical(offset) => lexical_line(alloc, kind, offset),
        QueryFault::TooDeep(statement) => statement_line(alloc, kind, statement, "is too deep"),
        QueryFault::Syntax(statement) => statement_line(
            alloc,
            kind,
            statement,
            "is not understood",
        ),
        QueryFault::Unknown(statement) => unknown_line(alloc, kind, statement),
        QueryFault::Twice(statement) => twice_line(alloc, kind, statement),
        QueryFault::Limit(statement, what) => limit_line(alloc, kind, statement, what),
        QueryFault::TypeClash(predicate) => clash_line(alloc, predicate),
        QueryFault::Memory => Err(AllocError),
    }
}

fn far_down_line(alloc: Global, node: u32) -> Result<String, AllocError>
    ensures { IfOk result (λ line. string_bytes line ≡ far_down_line node) }
{
    let prefix = prefix(TextKind::Derivation);
    let mut line = format!(in alloc; "{prefix}node {node}")?;
    line.push_str(" is too far down")?;
    line.push_str("\n")?;
    Ok(line)
}

/// The line of a fault of a derivation's text. Want of memory is told as itself.
pub fn derivation_line(alloc: Global, fault: DerivFault) -> Result<String, AllocError>
    ensures { IfOk result (λ line. derivation_line fault ≡ Some (string_bytes line)) }
{
    let kind = TextKind::Derivation;
    match fault {
        DerivFault::Lexical(offset) => lexical_line(alloc, kind, offset),
        DerivFault::TooDeep(statement) => statement_line(alloc, kind, statement, "is too deep"),
        DerivFault::Syntax(statement) => statement_line(
            alloc,
            kind,
            statement,
            "is not understood",
        ),
        DerivFault::TooTall(node) => far_down_line(alloc, node),
        DerivFault::Memory => Err(AllocError),
    }
}

// Of a derivation that isn't one of the query by the rules: its first invalid node, counted from 1
// in preorder.
pub fn not_derived_line(alloc: Global, node: u32) -> Result<String, AllocError>
    ensures { IfOk result (λ line. string_bytes line ≡ not_derived_line node) }
{
    let prefix = prefix(TextKind::Derivation);
    let mut line = format!(in alloc; "{prefix}not derived at node {node}")?;
    line.push_str("\n")?;
    Ok(line)
}
