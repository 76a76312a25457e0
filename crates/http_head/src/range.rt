ghost use Rattle.std.specs.Prelude.{◌≡◌, option_map};
ghost use Rattle.http_head.specs.Range.{between, from, last, wish_of_sides, wish_of_span, wish_of_value, wish_of};

use crate::words::{back_of, front_of, place_of, read_number};

/// What part of a file a request asks for.
#[derive(Clone, Copy, Debug, PartialEq, Eq)]
pub enum RangeWish {
    /// All of it.
    All,
    /// From the first place to the last one.
    Between(u64, u64),
    /// From that place on.
    From(u64),
    /// So many last bytes.
    Last(u64),
}

fn between(first: Option<u64>, last: Option<u64>) -> RangeWish
    ensures { result ≡ between first last }
{
    match (first, last) {
        (Some(first), Some(last)) if first <= last => RangeWish::Between(first, last),
        _ => RangeWish::All,
    }
}

fn wish_of_sides(front: &[u8], back: &[u8]) -> RangeWish
    ensures { result ≡ wish_of_sides front.now back.now }
{
    if front.is_empty() {
        read_number(back).map_or(RangeWish::All, RangeWish::Last)
    } else if back.is_empty() {
        read_number(front).map_or(RangeWish::All, RangeWish::From)
    } else {
        between(read_number(front), read_number(back))
    }
}

fn wish_of_span(span: &[u8]) -> RangeWish
    ensures { result ≡ wish_of_span span.now }
{
    if place_of(span, b'-') < span.len() {
        wish_of_sides(front_of(span, b'-'), back_of(span, b'-'))
    } else {
        RangeWish::All
    }
}

fn wish_of_value(value: &[u8]) -> RangeWish
    ensures { result ≡ wish_of_value value.now }
{
    match value.strip_prefix(b"bytes=".as_slice()) {
        Some(span) => wish_of_span(span),
        None => RangeWish::All,
    }
}

/// What the value of the first `Range` line asks for.
pub fn wish_of(value: Option<&[u8]>) -> RangeWish
    ensures { result ≡ wish_of (option_map (λ value. value.now) value.entry) }
{
    value.map_or(RangeWish::All, wish_of_value)
}
