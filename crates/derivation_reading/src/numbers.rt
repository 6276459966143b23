// Reading the number of an alternative and those of for-all values.
ghost use Rattle.std.specs.Prelude.{◌≡◌};
ghost use Rattle.spelling.specs.Reading.{Reads};
ghost use Rattle.derivation_reading.specs.StatementReading.{counted, counted_at, values_at};

use spelling::Cursor;
use star_model::derivations::ForAllValues;

fn counted(number: u64) -> Option<u32>
    ensures { result ≡ counted number }
{
    if 0 < number && number < 65536 {
        Some(number as u32)
    } else {
        None
    }
}

/// The next number, where it is one that counts an alternative.
#[tactic(auto, unfolding(crate::specs::StatementReading::counted_at))]
pub fn counted_number(cursor: &mut Cursor<'_>) -> Option<u32>
    ensures { Reads (counted_at cursor.old) result cursor.new }
{
    let number = cursor.number()?;
    counted(number)
}

/// The for-all values that come next, of which there may be none. A number behind the second isn't
/// passed.
pub fn values(cursor: &mut Cursor<'_>) -> Option<ForAllValues>
    ensures { Reads (values_at cursor.old) result cursor.new }
{
    let mut values = ForAllValues::new();
    for turn in 0..2u8 {
        let Some(number) = cursor.number() else {
            return Some(values);
        };
        let value = counted(number)?;
        let pushed = values.try_push(value);
        prove!(pushed.is_ok());
    }
    Some(values)
}
