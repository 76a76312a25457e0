ghost use Rattle.std.specs.Prelude.{◌≡◌, ◌<◌, length, map, IfOk};
ghost use Rattle.std.specs.List.{slice_split};
ghost use Rattle.http_head.specs.Target.{begins_escape, stands_well, is_well_escaped, path_of, decoded, query_part, is_ampersand, query_of};
ghost use Rattle.percent_encoding.specs.Percent.{percent_decode};

use crate::head::HeadQuery;
use crate::words::{back_of, front_of, place_of};
use percent_encoding::percent_decode;
use std::alloc::{AllocError, Global};
use weed_base::{Bytes, Items};

fn begins_escape(text: &[u8]) -> bool
    ensures { result ≡ begins_escape text.now }
{
    match text {
        [high, low, ..] => high.is_ascii_hexdigit() && low.is_ascii_hexdigit(),
        _ => false,
    }
}

/// Whether no `%` without its two digits stands at the place.
fn stands_well(text: &[u8], place: usize) -> bool
    requires { place < length text.now }
    ensures { result ≡ stands_well text.now place }
{
    text[place] != b'%' || begins_escape(&text[place + 1..])
}

/// Whether behind each `%` stand two hexadecimal digits. Takes no memory.
pub fn is_well_escaped(target: &[u8]) -> bool
    ensures { result ≡ is_well_escaped target.now }
{
    for place in 0..target.len() {
        if !stands_well(target, place) {
            return false;
        }
    }
    true
}

fn bytes_of_escaped(alloc: Global, text: &[u8]) -> Result<Bytes, AllocError>
    ensures { IfOk result (λ bytes. bytes ≡ percent_decode text.now) }
{
    let mut bytes = Vec::new(alloc);
    percent_decode(text).append_to(&mut bytes)?;
    Ok(Bytes::of(bytes))
}

/// The path of a target.
pub fn path_of(alloc: Global, target: &[u8]) -> Result<Bytes, AllocError>
    ensures { IfOk result (λ path. path ≡ path_of target.now) }
{
    bytes_of_escaped(alloc, front_of(target, b'?'))
}

fn decoded(alloc: Global, text: &[u8]) -> Result<Bytes, AllocError>
    ensures { IfOk result (λ bytes. bytes ≡ decoded text.now) }
{
    let mut spaced = Vec::new(alloc);
    for byte in text {
        spaced.push(if *byte == b'+' { b' ' } else { *byte })?;
    }
    bytes_of_escaped(alloc, spaced.as_slice())
}

fn query_part(alloc: Global, part: &[u8]) -> Result<(Bytes, Bytes), AllocError>
    ensures { IfOk result (λ made. made ≡ query_part part.now) }
{
    let name = decoded(alloc, front_of(part, b'='))?;
    let value = decoded(alloc, back_of(part, b'='))?;
    Ok((name, value))
}

fn query_parts(alloc: Global, query: &[u8]) -> Result<Vec<(Bytes, Bytes)>, AllocError>
    ensures { IfOk result (λ parts. parts.items ≡ map query_part (slice_split is_ampersand query.now)) }
{
    let mut parts = Vec::new(alloc);
    for part in query.split(|byte| *byte == b'&') {
        parts.push(query_part(alloc, part)?)?;
    }
    Ok(parts)
}

/// The parts of a target's query, none where it has no query.
pub fn query_of(alloc: Global, target: &[u8]) -> Result<HeadQuery, AllocError>
    ensures { IfOk result (λ query. query ≡ query_of target.now) }
{
    if place_of(target, b'?') < target.len() {
        Ok(Items::of(query_parts(alloc, back_of(target, b'?'))?))
    } else {
        Ok(Items::of(Vec::new(alloc)))
    }
}
