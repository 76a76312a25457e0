ghost use Rattle.std.specs.Prelude.{◌≡◌, ℕ, List, replicate, ◌+◌, ◌-◌, ◌%◌, ◌<◌, ◌≤◌, ◌^◌, ◌++◌, length, IfOk, OnOk, IfSome};
ghost use Rattle.std.specs.Int.{w32, w64, to_be_bytes};
ghost use Rattle.needle.specs.Answer.{BeginsWith, IsItem, kept_moment};
ghost use Rattle.needle.specs.Layout.{padded};
ghost use Rattle.needle.specs.Item.{IsNeedle, IsWithinLimits, IsWritable, counted, content, unmarked, flags, part, parts_text, short_text, long_text, five_bytes, moment_text, item_text, item_front, padding_len, cookie_of, key_of};

use crate::crc::crc32c;
use crate::item::{Item, Needle};
use crate::parts::{MIME, MODIFIED, NAME, PAIRS, TTL};
use crate::version::{Version, padded_len};
use std::alloc::{AllocError, Global};
use weed_base::Bytes;

/// Adds a part with its length in one byte.
fn put_short(out: &mut Vec<u8>, bytes: &Option<Bytes>) -> Result<(), AllocError>
    requires { IfSome bytes.now (λ bytes. length bytes ≤ 255) }
    ensures { OnOk result (out.new.items ≡ out.old.items ++ part short_text bytes.now) }
{
    if let Some(bytes) = bytes {
        let bytes = bytes.as_slice();
        out.push(bytes.len() as u8)?;
        out.extend_from_slice(bytes)?;
    }
    Ok(())
}

/// Adds a part with its length in two bytes.
fn put_long(out: &mut Vec<u8>, bytes: &Option<Bytes>) -> Result<(), AllocError>
    requires { IfSome bytes.now (λ bytes. length bytes ≤ 65535) }
    ensures { OnOk result (out.new.items ≡ out.old.items ++ part long_text bytes.now) }
{
    if let Some(bytes) = bytes {
        let bytes = bytes.as_slice();
        out.extend_from_slice(&(bytes.len() as u16).to_be_bytes())?;
        out.extend_from_slice(bytes)?;
    }
    Ok(())
}

/// Adds a number in five bytes.
fn put_modified(out: &mut Vec<u8>, seconds: Option<u64>) -> Result<(), AllocError>
    ensures { OnOk result (out.new.items ≡ out.old.items ++ part five_bytes seconds) }
{
    if let Some(seconds) = seconds {
        out.extend_from_slice(&seconds.to_be_bytes()[3..])?;
    }
    Ok(())
}

fn put_ttl(out: &mut Vec<u8>, ttl: Option<[u8; 2]>) -> Result<(), AllocError>
    ensures { OnOk result (out.new.items ≡ out.old.items ++ part (λ ttl. ttl) ttl) }
{
    if let Some(ttl) = ttl {
        out.extend_from_slice(&ttl)?;
    }
    Ok(())
}

/// The flags of the parts that are there.
pub(crate) fn flags_of(needle: &Needle) -> u8
    ensures { result ≡ flags unmarked needle.now }
{
    u8::from(needle.name.is_some()) * NAME
        + u8::from(needle.mime.is_some()) * MIME
        + u8::from(needle.modified.is_some()) * MODIFIED
        + u8::from(needle.ttl.is_some()) * TTL
        + u8::from(needle.pairs.is_some()) * PAIRS
}

fn short_len(bytes: &Option<Bytes>) -> usize
    requires { IfSome bytes.now (λ bytes. length bytes ≤ 255) }
    ensures len { result ≡ length (part short_text bytes.now) }
    ensures bound { result ≤ 256 }
{
    bytes.as_ref().map_or(0, |bytes| 1 + bytes.as_slice().len())
}

fn long_len(bytes: &Option<Bytes>) -> usize
    requires { IfSome bytes.now (λ bytes. length bytes ≤ 65535) }
    ensures len { result ≡ length (part long_text bytes.now) }
    ensures bound { result ≤ 65537 }
{
    bytes.as_ref().map_or(0, |bytes| 2 + bytes.as_slice().len())
}

fn modified_len(seconds: Option<u64>) -> usize
    ensures len { result ≡ length (part five_bytes seconds) }
    ensures bound { result ≤ 5 }
{
    seconds.map_or(0, |_| 5)
}

fn ttl_len(ttl: Option<[u8; 2]>) -> usize
    ensures len { result ≡ length (part (λ ttl. ttl) ttl) }
    ensures bound { result ≤ 2 }
    ensures two { IfSome ttl (λ ttl. length ttl ≡ 2) }
{
    match ttl {
        Some(ttl) => ttl.len(),
        None => 0,
    }
}

/// How many bytes the size counts.
pub(crate) fn counted_len(needle: &Needle) -> usize
    requires { IsWithinLimits needle.now }
    ensures len { result ≡ length (counted unmarked needle.now) }
    ensures bound { result < 2 ^ 32 }
    ensures fits { needle.now.cookie < 2 ^ 32 → needle.now.key < 2 ^ 64 → IsNeedle needle.now }
{
    4 + needle.body.as_slice().len()
        + 1
        + short_len(&needle.name)
        + short_len(&needle.mime)
        + modified_len(needle.modified)
        + ttl_len(needle.ttl)
        + long_len(&needle.pairs)
}

/// Adds the parts that a flag tells of.
pub(crate) fn put_parts(out: &mut Vec<u8>, needle: &Needle) -> Result<(), AllocError>
    requires { IsWithinLimits needle.now }
    ensures { OnOk result (out.new.items ≡ out.old.items ++ parts_text needle.now) }
{
    put_short(out, &needle.name)?;
    put_short(out, &needle.mime)?;
    put_modified(out, needle.modified)?;
    put_ttl(out, needle.ttl)?;
    put_long(out, &needle.pairs)
}

/// Adds what the size counts.
fn put_counted(out: &mut Vec<u8>, needle: &Needle) -> Result<(), AllocError>
    requires { IsWithinLimits needle.now }
    ensures { OnOk result (out.new.items ≡ out.old.items ++ counted unmarked needle.now) }
{
    let body = needle.body.as_slice();
    out.extend_from_slice(&(body.len() as u32).to_be_bytes())?;
    out.extend_from_slice(body)?;
    out.push(flags_of(needle))?;
    put_parts(out, needle)
}

/// Adds the moment, from version 3 on.
pub(crate) fn put_moment(out: &mut Vec<u8>, version: Version, moment: u64) -> Result<(), AllocError>
    ensures { OnOk result (out.new.items ≡ out.old.items ++ moment_text version moment) }
{
    match version {
        Version::V2 => Ok(()),
        Version::V3 => out.extend_from_slice(&moment.to_be_bytes()),
    }
}

/// Adds cookie, key and size.
fn put_head(out: &mut Vec<u8>, cookie: u32, key: u64, size: u32) -> Result<(), AllocError>
    ensures { OnOk result (out.new.items ≡ out.old.items ++ (to_be_bytes w32 cookie ++ (to_be_bytes w64 key ++ to_be_bytes w32 size))) }
{
    out.extend_from_slice(&cookie.to_be_bytes())?;
    out.extend_from_slice(&key.to_be_bytes())?;
    out.extend_from_slice(&size.to_be_bytes())
}

/// Adds the 1 to 8 zeros that stand behind `len` bytes, to a multiple of 8.
pub(crate) fn put_zeros(out: &mut Vec<u8>, len: usize) -> Result<(), AllocError>
    ensures { OnOk result (out.new.items ≡ out.old.items ++ replicate (8 - len % 8) 0) }
{
    out.extend_from_slice(&[0; 8][..8 - len % 8])
}

/// Adds 1 to 8 zeros, to a multiple of 8.
fn put_padding(out: &mut Vec<u8>) -> Result<(), AllocError>
    ensures { OnOk result (out.new.items ≡ out.old.items ++ replicate (padding_len out.old.items) 0) }
{
    let len = out.len();
    put_zeros(out, len)
}

/// What the size of the item is.
fn size_of(item: &Item) -> u32
    requires { IsWritable item.now }
    ensures len { result ≡ length (content item.now) }
    ensures fits { cookie_of item.now < 2 ^ 32 → key_of item.now < 2 ^ 64 → IsItem item.now }
{
    match item {
        Item::Live(needle) => counted_len(needle) as u32,
        Item::Gone { .. } => 0,
    }
}

/// Adds what the size counts of an item.
fn put_content(out: &mut Vec<u8>, item: &Item) -> Result<(), AllocError>
    requires { IsWritable item.now }
    ensures { OnOk result (out.new.items ≡ out.old.items ++ content item.now) }
{
    match item {
        Item::Live(needle) => put_counted(out, needle),
        Item::Gone { .. } => Ok(()),
    }
}

/// Adds the item up to its padding.
fn put_front(
    out: &mut Vec<u8>,
    item: &Item,
    version: Version,
    moment: u64,
) -> Result<(), AllocError>
    requires { IsWritable item.now }
    ensures text { OnOk result (out.new.items ≡ out.old.items ++ item_front item.now version moment) }
    ensures fits { OnOk result (IsItem item.now) }
{
    put_head(out, item.cookie(), item.key(), size_of(item))?;
    put_content(out, item)?;
    out.extend_from_slice(&crc32c(item.body()).to_be_bytes())?;
    put_moment(out, version, moment)
}

impl Needle {
    /// The text of the item, padded with zeros; `moment`, in nanoseconds since 1970, stands in it from version 3 on.
    pub fn write(
        alloc: Global,
        item: &Item,
        version: Version,
        moment: u64,
    ) -> Result<Bytes, AllocError>
        requires { IsWritable item.now }
        ensures text { IfOk result (λ text. text ≡ item_text item.now version moment) }
        ensures len { IfOk result (λ text. length text ≡ padded version (length (content item.now))) }
        // What is written is read again, whatever follows it.
        ensures readable { IfOk result (λ text. (rest : List ℕ) → BeginsWith version (text ++ rest)
            (record { item = item.now; taken = length text; moment = kept_moment version moment })) }
    {
        let mut out = Vec::with_capacity(alloc, padded_len(size_of(item), version) as usize)?;
        put_front(&mut out, item, version, moment)?;
        put_padding(&mut out)?;
        Ok(Bytes::of(out))
    }
}
