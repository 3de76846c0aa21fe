// The number of a heading line.
ghost use Rattle.std.specs.Prelude.{◌≡◌, false};
ghost use Rattle.std.specs.Range.{range_inclusive_end, range_inclusive_exhausted, range_inclusive_start};
ghost use Rattle.reader.specs.Numbers.{value_from, within, number_in, wanted, placed};

use crate::state::ReadRefusal;
use std::ops::RangeInclusive;

// The value of the digits, where it has 32 bits. A value that has more only grows, so no number of digits is too many.
fn value(digits: &[u8]) -> Option<u32>
    ensures { result ≡ within 0 4294967295 (value_from 0 digits.now) }
{
    let mut n = 0u32;
    for b in digits {
        let digit = (*b as char).to_digit(10)?;
        n = n.checked_mul(10)?.checked_add(digit)?;
    }
    Some(n)
}

// The number after one space, with nothing but its digits and no leading zero.
fn numeral(part: &[u8]) -> Option<u32>
    ensures { result ≡ number_in 0 4294967295 part.now }
{
    match part {
        [b' '] | [b' ', b'0', _, ..] => None,
        [b' ', digits @ ..] => value(digits),
        _ => None,
    }
}

// The number after the start of a heading line.
pub(crate) fn number(part: &[u8], range: RangeInclusive<u32>) -> Result<u32, ReadRefusal>
    requires { range_inclusive_exhausted range ≡ false }
    ensures { result ≡ wanted (number_in (range_inclusive_start range) (range_inclusive_end range) part.now) }
{
    numeral(part)
        .filter(|n| range.contains(n))
        .ok_or(ReadRefusal::Number)
}

// The number of rows, for which the list has to have places.
pub(crate) fn count(part: &[u8], places: usize) -> Result<u32, ReadRefusal>
    ensures { result ≡ placed places (wanted (number_in 0 960 part.now)) }
{
    let rows = number(part, 0..=960)?;
    if rows as usize > places {
        return Err(ReadRefusal::FewPlaces);
    }
    Ok(rows)
}
