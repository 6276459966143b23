// Looking bytes up in tables.
ghost use Rattle.std.specs.Prelude.{◌≡◌};
ghost use Rattle.star_model.specs.Vectors.{same_numbers};
ghost use Rattle.spelling.specs.Names.{found_in};
ghost use Rattle.spelling.specs.Tables.{spellings};

// A function of its own: the proof of a generic function doesn't see what `==` answers on slices.
fn are_same(a: &[u8], b: &[u8]) -> bool
    ensures { result ≡ same_numbers a.now b.now }
{
    a == b
}

/// What stands beside these bytes in a table, `other` where they aren't in it.
pub fn found_in<T: Copy>(rows: &[(&[u8], T)], bytes: &[u8], other: T) -> T
    ensures { result ≡ found_in other (spellings rows.now) bytes.now }
{
    for (spelling, found) in rows {
        if are_same(spelling, bytes) {
            return *found;
        }
    }
    other
}
