// The integer that a field spells.
ghost use Rattle.std.specs.Prelude.{◌≡◌, ◌≤◌, reverse, option_and_then};
ghost use Rattle.star_model.specs.Limits.{least_integer_size};
ghost use Rattle.star_model.specs.Data.{without_leading_spaces, without_spaces, digits_spell, at_most, signed_spell, integer_in};

// The bytes behind the spaces at the front.
fn trim_start(bytes: &[u8]) -> &[u8]
    ensures { result.now ≡ without_leading_spaces bytes.now }
{
    for (start, byte) in bytes.iter().enumerate() {
        if *byte != b' ' {
            return &bytes[start..];
        }
    }
    &[]
}

// The bytes before the spaces at the end.
fn trim_end(bytes: &[u8]) -> &[u8]
    ensures { result.now ≡ reverse (without_leading_spaces (reverse bytes.now)) }
{
    for last in (0..bytes.len()).rev() {
        if bytes[last] != b' ' {
            return &bytes[..=last];
        }
    }
    &[]
}

// The number that one or more digits spell, if it isn't above the bound.
fn number_of(digits: &[u8], bound: u64) -> Option<u64>
    requires { bound ≤ least_integer_size }
    ensures { result ≡ option_and_then (at_most bound) (digits_spell digits.now) }
{
    if digits.is_empty() {
        return None;
    }
    let mut number: u64 = 0;
    for digit in digits {
        if !digit.is_ascii_digit() {
            return None;
        }
        number = number
            .saturating_mul(10)
            .saturating_add(u64::from(*digit - b'0'));
    }
    if number <= bound { Some(number) } else { None }
}

// The number that digits spell behind a sign or none.
fn signed_number_of(bytes: &[u8]) -> Option<i64>
    ensures { result ≡ signed_spell bytes.now }
{
    match bytes {
        [] => None,
        [b'-', digits @ ..] => number_of(digits, 1 << 63).map(|number| 0i64.wrapping_sub_unsigned(
            number,
        )),
        [b'+', digits @ ..] => number_of(digits, i64::MAX as u64).map(|number| number as i64),
        digits => number_of(digits, i64::MAX as u64).map(|number| number as i64),
    }
}

/// The integer that a field spells: spaces, a sign or none, digits, spaces. None where it spells
/// none, or none of 64 bits.
pub fn integer_of(field: &[u8]) -> Option<i64>
    ensures { result ≡ integer_in field.now }
{
    signed_number_of(trim_end(trim_start(field)))
}
