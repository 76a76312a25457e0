ghost use Rattle.std.specs.Prelude.{◌≡◌, ◌==◌, position, ◌^◌, ◌<◌, ◌≤◌, IsTrue, length};
ghost use Rattle.std.specs.Char.{digit_value, is_ascii_digit, is_digit};
ghost use Rattle.std.specs.List.{list_all};
ghost use Rattle.std.specs.Option.{ok_or, option_map};
ghost use Rattle.std.specs.Result.{result_map_both};
ghost use Rattle.std.specs.Str.Parse.{digits_value};
ghost use Rattle.file_id.specs.Reading as spec;

use crate::fault::FidFault;
use crate::fid::Fid;

/// Hexadecimal digits and the number behind them.
#[derive(Clone, Copy)]
struct Tail<'a> {
    digits: &'a [u8],
    delta: u64,
}

fn first_place(byte: u8, text: &[u8]) -> Option<usize>
    ensures { result ≡ position (λ found. found == byte) text.now }
{
    text.iter().position(|found| *found == byte)
}

/// What stands before and behind the first such byte.
fn cut_first(byte: u8, text: &[u8]) -> Option<(&[u8], &[u8])>
    ensures { option_map (λ cut. (cut.0.now, cut.1.now)) result ≡ spec.cut_first byte text.now }
{
    let at = first_place(byte, text)?;
    Some((&text[..at], &text[at + 1..]))
}

/// What stands before and behind the last such byte.
fn cut_last(byte: u8, text: &[u8]) -> Option<(&[u8], &[u8])>
    ensures { option_map (λ cut. (cut.0.now, cut.1.now)) result ≡ spec.cut_last byte text.now }
{
    for at in (0..text.len()).rev() {
        if text[at] == byte {
            return Some((&text[..at], &text[at + 1..]));
        }
    }
    None
}

fn are_digits(text: &[u8]) -> bool
    ensures { result ≡ list_all is_ascii_digit text.now }
{
    text.iter().all(|byte| byte.is_ascii_digit())
}

fn is_number(text: &[u8]) -> bool
    ensures { result ≡ spec.is_number text.now }
{
    are_digits(text) && !text.is_empty() && (text.len() == 1 || text[0] != b'0')
}

fn as_str(digits: &[u8]) -> &str
    requires { IsTrue (list_all is_ascii_digit digits.now) }
    ensures { result.now ≡ digits.now }
{
    str::from_utf8(digits).unwrap()
}

fn number(text: &[u8]) -> Option<u64>
    ensures { result ≡ spec.number_below (2 ^ 64) text.now }
{
    if !is_number(text) {
        return None;
    }
    as_str(text).parse().ok()
}

/// The number of a volume.
fn volume_of(text: &[u8]) -> Result<u32, FidFault>
    ensures { result ≡ ok_or (spec.number_below (2 ^ 32) text.now) FidFault.BadVolume }
{
    let volume = number(text).ok_or(FidFault::BadVolume)?;
    u32::try_from(volume).ok().ok_or(FidFault::BadVolume)
}

/// The digits before the last `_` and the number behind it, or all of the text and 0.
fn tail_of(text: &[u8]) -> Result<Tail<'_>, FidFault>
    ensures { result_map_both (λ tail. record { digits = tail.digits.now; delta = tail.delta }) (λ fault. fault) result ≡ spec.tail_of text.now (spec.cut_last 95 text.now) }
{
    match cut_last(b'_', text) {
        Some((digits, number_text)) => Ok(Tail {
            digits,
            delta: number(number_text).ok_or(FidFault::BadDelta)?,
        }),
        None => Ok(Tail {
            digits: text,
            delta: 0,
        }),
    }
}

fn are_hex(digits: &[u8]) -> bool
    ensures { result ≡ list_all (λ c. is_digit c 16) digits.now }
{
    digits.iter().all(|digit| char::from(*digit).is_digit(16))
}

fn hex_digit(digit: u8) -> u64
    requires { IsTrue (is_digit digit 16) }
    ensures value { result ≡ digit_value digit }
    ensures below { result < 16 }
{
    u64::from(char::from(digit).to_digit(16).unwrap())
}

/// The number that hexadecimal digits write.
fn hex_value(digits: &[u8]) -> u64
    requires digits { IsTrue (list_all (λ c. is_digit c 16) digits.now) }
    requires few { length digits.now ≤ 16 }
    ensures value { result ≡ digits_value 16 digits.now }
    ensures below { length digits.now ≤ 8 → result < 2 ^ 32 }
{
    let mut value = 0;
    for digit in digits {
        value = value * 16 + hex_digit(*digit);
    }
    value
}

/// The id of a volume, with the key and the cookie that the digits write.
fn id_of(volume: u32, digits: &[u8]) -> Result<Fid, FidFault>
    ensures { result ≡ spec.id_of volume digits.now }
{
    if !are_hex(digits) {
        return Err(FidFault::BadHex);
    }
    if digits.len() < 9 {
        return Err(FidFault::KeyTooShort);
    }
    if digits.len() > 24 {
        return Err(FidFault::KeyTooLong);
    }
    let (key, cookie) = digits.split_at(digits.len() - 8);
    Ok(Fid {
        volume,
        key: hex_value(key),
        cookie: hex_value(cookie) as u32,
    })
}

/// The id that a text names.
#[tactic(auto, unfolding(crate::specs::Reading::fid_of))]
pub fn read(text: &[u8]) -> Result<Fid, FidFault>
    ensures { result ≡ spec.fid_of text.now }
{
    let (volume, rest) = cut_first(b',', text).ok_or(FidFault::NoComma)?;
    let volume = volume_of(volume)?;
    let tail = tail_of(rest)?;
    id_of(volume, tail.digits)?.plus(tail.delta)
}
