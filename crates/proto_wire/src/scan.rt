//! What stands at the front of a text, and the bytes behind it.
ghost use Rattle.std.specs.Prelude.{◌≡◌, ◌*◌, ◌%◌, ◌^◌, ◌≤◌, Ok};
ghost use Rattle.std.specs.Int.{w32, w64};
ghost use Rattle.proto_wire.specs.Field.{value_text, field_text, varint_at, fixed_at, bytes_at, value_at, field_at};
ghost use Rattle.proto_wire.specs.Reading.{Gives, AreBytes};

use crate::fault::WireFault;
use crate::field::{Field, Value};
use crate::wire_type::WireType;

const MAX_NUMBER: u64 = 536_870_911;

#[tactic(auto, unfolding(crate::specs::Field::fixed_at))]
fn fixed64_of(text: &[u8]) -> Result<(u64, &[u8]), WireFault>
    ensures { Gives (λ found. (found.0, found.1.now)) result (fixed_at w64 text.now) }
{
    if text.len() < 8 {
        return Err(WireFault::Truncated);
    }
    let (front, rest) = text.split_at(8);
    let number = u64::from_le_bytes([
        front[0], front[1], front[2], front[3], front[4], front[5], front[6], front[7],
    ]);
    Ok((number, rest))
}

#[tactic(auto, unfolding(crate::specs::Field::fixed_at))]
fn fixed32_of(text: &[u8]) -> Result<(u32, &[u8]), WireFault>
    ensures { Gives (λ found. (found.0, found.1.now)) result (fixed_at w32 text.now) }
{
    if text.len() < 4 {
        return Err(WireFault::Truncated);
    }
    let (front, rest) = text.split_at(4);
    let number = u32::from_le_bytes([front[0], front[1], front[2], front[3]]);
    Ok((number, rest))
}

fn varint_of(text: &[u8]) -> Result<(u64, &[u8]), WireFault>
    ensures { Gives (λ found. (found.0, found.1.now)) result (varint_at text.now) }
{
    // Most numbers have one byte.
    match text {
        [byte, rest @ ..] if *byte < 0x80 => Ok((u64::from(*byte), rest)),
        _ => long_varint_of(text),
    }
}

/// The low seven bits of a byte at their place in a number.
fn group_at(index: usize, byte: u8) -> u64
    requires place { index ≤ 9 }
    requires last { index ≡ 9 → byte ≤ 1 }
    ensures { result ≡ byte % 128 * 2 ^ (7 * index) }
{
    u64::from(byte % 0x80) << (7 * index)
}

fn long_varint_of(text: &[u8]) -> Result<(u64, &[u8]), WireFault>
    ensures { Gives (λ found. (found.0, found.1.now)) result (varint_at text.now) }
{
    let mut value = 0;
    for (index, byte) in text.iter().enumerate() {
        // The tenth byte has one bit of the 64, and no byte follows it.
        if index == 9 && *byte > 1 {
            return Err(WireFault::BadVarint);
        }
        value += group_at(index, *byte);
        if *byte < 0x80 {
            return Ok((value, &text[index + 1..]));
        }
    }
    Err(WireFault::Truncated)
}

#[tactic(auto, unfolding(crate::specs::Field::bytes_at))]
fn bytes_of(text: &[u8]) -> Result<(&[u8], &[u8]), WireFault>
    ensures { Gives (λ found. (found.0.now, found.1.now)) result (bytes_at text.now) }
{
    let (length, rest) = varint_of(text)?;
    if (rest.len() as u64) < length {
        return Err(WireFault::Truncated);
    }
    Ok(rest.split_at(length as usize))
}

#[tactic(auto, unfolding(crate::specs::Field::value_at))]
fn value_of(code: u64, text: &[u8]) -> Result<(Value<'_>, &[u8]), WireFault>
    ensures { Gives (λ found. (value_text found.0, found.1.now)) result (value_at code text.now) }
{
    match WireType::of_code(code)? {
        WireType::Varint => {
            let (number, rest) = varint_of(text)?;
            Ok((Value::Varint(number), rest))
        }
        WireType::Fixed64 => {
            let (number, rest) = fixed64_of(text)?;
            Ok((Value::Fixed64(number), rest))
        }
        WireType::Bytes => {
            let (bytes, rest) = bytes_of(text)?;
            Ok((Value::Bytes(bytes), rest))
        }
        WireType::Fixed32 => {
            let (number, rest) = fixed32_of(text)?;
            Ok((Value::Fixed32(number), rest))
        }
    }
}

/// The field at the front of the text, and the bytes behind it.
#[tactic(auto, unfolding(crate::specs::Field::field_at))]
pub fn field_of(text: &[u8]) -> Result<(Field<'_>, &[u8]), WireFault>
    ensures answer { Gives (λ found. (field_text found.0, found.1.now)) result (field_at text.now) }
    ensures bytes { AreBytes (Ok text.now) }
{
    let (tag, rest) = varint_of(text)?;
    let number = tag / 8;
    if number == 0 || number > MAX_NUMBER {
        return Err(WireFault::BadTag);
    }
    let (value, rest) = value_of(tag % 8, rest)?;
    let field = Field {
        number: number as u32,
        value,
    };
    Ok((field, rest))
}
