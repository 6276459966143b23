// Two parts that are read one after the other.
ghost use Rattle.std.specs.Prelude.{◌≡◌};
ghost use Rattle.spelling.specs.Joining.{paired};

/// Both parts, where the second was read; else the first is dropped.
///
/// It is generic, so that what the parts are made of isn't seen where they are joined.
pub fn paired<A: Drop, B: Drop, E: Drop>(first: A, second: Result<B, E>) -> Result<(A, B), E>
    ensures { result ≡ paired first second }
{
    match second {
        Ok(second) => Ok((first, second)),
        Err(error) => Err(error),
    }
}
