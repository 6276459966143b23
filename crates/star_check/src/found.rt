// What is found in statements, of which the first counts.
ghost use Rattle.std.specs.Prelude.{◌≡◌};
ghost use Rattle.star_check.specs.Findings.{earlier_found};

/// What a statement shows.
#[derive(Clone, Copy, Debug)]
pub struct Found<T> {
    /// The number of the statement, from 1.
    pub statement: u32,
    pub what: T,
}

/// The finding of the earlier statement, where there are any.
pub fn earlier_found<T: Copy>(first: Option<Found<T>>, own: Option<Found<T>>) -> Option<Found<T>>
    ensures { result ≡ earlier_found first own }
{
    match first {
        None => own,
        Some(first) => match own {
            None => Some(first),
            Some(own) => {
                if own.statement < first.statement {
                    Some(own)
                } else {
                    Some(first)
                }
            }
        },
    }
}
