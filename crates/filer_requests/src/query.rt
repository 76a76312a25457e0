ghost use Rattle.std.specs.Prelude.{◌≡◌, option_map, IsTrue};
ghost use Rattle.std.specs.List.{list_all};
ghost use Rattle.std.specs.Char.{is_ascii_digit};
ghost use Rattle.std.specs.Str.Parse.{digits_value};
ghost use Rattle.filer_requests.specs.Query.{value_of, truth_of, limit_of, place_of, fitting, moment_of};

use http_head::read_number;
use weed_base::Bytes;

/// The most names in a listing.
const MAX_LIMIT: u64 = 10_000;

/// How many where none is asked for.
const USUAL_LIMIT: u32 = 100;

/// One more than the greatest length of a file.
const PAST_FILES: u64 = 274_877_906_945;

/// The value of the first part of that name.
pub fn value_of<'q>(query: &'q [(Bytes, Bytes)], name: &[u8]) -> Option<&'q [u8]>
    ensures { option_map (λ value. value.now) result ≡ value_of name.now query.now }
{
    for (key, value) in query {
        if key.as_slice() == name {
            return Some(value.as_slice());
        }
    }
    None
}

/// A truth value, which is false where it is missing. None where it has another form.
pub fn truth_of(value: Option<&[u8]>) -> Option<bool>
    ensures { result ≡ truth_of (option_map (λ value. value.now) value.entry) }
{
    match value {
        None => Some(false),
        Some(value) if value == b"true".as_slice() => Some(true),
        Some(value) if value == b"false".as_slice() => Some(false),
        Some(_) => None,
    }
}

/// How many names are asked for: 1 to 10,000, and 100 where it is missing.
pub fn limit_of(value: Option<&[u8]>) -> Option<u32>
    ensures { result ≡ limit_of (option_map (λ value. value.now) value.entry) }
{
    let Some(value) = value else {
        return Some(USUAL_LIMIT);
    };
    let count = read_number(value)?;
    if 1 <= count && count <= MAX_LIMIT {
        Some(count as u32)
    } else {
        None
    }
}

/// A place in a file. All places past the greatest file are one.
pub fn place_of(value: &[u8]) -> Option<u64>
    ensures { result ≡ place_of value.now }
{
    let place = read_number(value)?;
    Some(place.min(PAST_FILES))
}

/// A moment, up to 2^64 - 1.
pub fn moment_of(value: &[u8]) -> Option<u64>
    ensures { result ≡ moment_of value.now }
{
    read_number(value)?;
    exact_value(value)
}

/// The number that decimal digits say, where it fits.
fn exact_value(digits: &[u8]) -> Option<u64>
    ensures { IsTrue (list_all is_ascii_digit digits.now) → result ≡ fitting (digits_value 10 digits.now) }
{
    let mut value = 0u64;
    for digit in digits {
        value = value
            .checked_mul(10)?
            .checked_add(u64::from(digit.saturating_sub(b'0')))?;
    }
    Some(value)
}
