// The first of statements: the one with the least number.
ghost use Rattle.std.specs.Prelude.{◌≡◌};
ghost use Rattle.star_check.specs.FirstStatements.{earlier, earlier_of, with_statement};

/// The earlier of these two statements.
pub fn earlier(first: Option<u32>, statement: u32) -> u32
    ensures { result ≡ earlier first statement }
{
    match first {
        None => statement,
        Some(first) => first.min(statement),
    }
}

/// The earlier of these two statements, where there are any.
pub fn earlier_of(one: Option<u32>, other: Option<u32>) -> Option<u32>
    ensures { result ≡ earlier_of one other }
{
    match other {
        None => one,
        Some(statement) => Some(earlier(one, statement)),
    }
}

/// The earlier of these two statements, where the second counts.
pub fn with_statement(first: Option<u32>, counts: bool, statement: u32) -> Option<u32>
    ensures { result ≡ with_statement first counts statement }
{
    if counts {
        Some(earlier(first, statement))
    } else {
        first
    }
}
