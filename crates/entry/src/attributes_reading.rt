//! FuseAttributes, as they are read: with the last values of their fields.
ghost use Rattle.std.specs.Prelude.{◌≡◌, ◌==◌, ◌||◌, ◌^◌, if◌then◌else◌, IfOk, IsTrue, length, nat_lt, Some, None};
ghost use Rattle.entry.specs.AttributesText.{are_good, attributes_of};

use crate::entry::{Attributes, MAX_FILE_SIZE, MAX_MIME};
use proto_wire::{Field, Message, Value};
use std::alloc::{AllocError, Global};
use std::marker::Model;
use weed_base::Mime;

/// The length of a digest in bytes.
const DIGEST: usize = 16;

/// FuseAttributes.
#[derive(Debug, Drop)]
pub struct AttributesFields<'a> {
    pub file_size: u64,
    pub mtime: u64,
    pub mode: u64,
    pub uid: u64,
    pub gid: u64,
    pub crtime: u64,
    pub mime: &'a [u8],
    pub ttl_sec: u64,
    pub md5: &'a [u8],
}

impl<'a> Model for AttributesFields<'a> {
    ghost use Rattle.entry.specs.AttributesText.{AttributesText};

    ghost Value = { AttributesText };

    ghost view = { λ taken. record {
      file_size = taken.file_size;
      mtime = taken.mtime;
      mode = taken.mode;
      uid = taken.uid;
      gid = taken.gid;
      crtime = taken.crtime;
      mime = taken.mime.now;
      ttl_sec = taken.ttl_sec;
      md5 = taken.md5.now;
    } };
}

impl<'a> AttributesFields<'a> {
    ghost use Rattle.entry.specs.Steps.{attributes_with_number, attributes_with_text};

    fn take_number(&mut self, number: u32, value: u64)
        ensures { self.new ≡ attributes_with_number number value self.old }
    {
        match number {
            1 => self.file_size = value,
            2 => self.mtime = value,
            3 => self.mode = value,
            4 => self.uid = value,
            5 => self.gid = value,
            6 => self.crtime = value,
            10 => self.ttl_sec = value,
            _ => {}
        }
    }

    fn take_text(&mut self, number: u32, text: &'a [u8])
        ensures { self.new ≡ attributes_with_text number text.entry.now self.old }
    {
        match number {
            7 => self.mime = text,
            14 => self.md5 = text,
            _ => {}
        }
    }
}

impl<'a> Message<'a> for AttributesFields<'a> {
    ghost use Rattle.entry.specs.AttributesText.{attributes_in};

    ghost IsOf = { λ fields taken. taken ≡ attributes_in fields };

    fn empty() -> Self {
        AttributesFields {
            file_size: 0,
            mtime: 0,
            mode: 0,
            uid: 0,
            gid: 0,
            crtime: 0,
            mime: &[],
            ttl_sec: 0,
            md5: &[],
        }
    }

    fn take(&mut self, field: Field<'a>) {
        match field.value {
            Value::Varint(value) => self.take_number(field.number, value),
            Value::Bytes(text) => self.take_text(field.number, text),
            Value::Fixed64(_) | Value::Fixed32(_) => {}
        }
    }
}

/// The values fit their types, and keep to the limits of an entry.
pub fn have_good_values(attributes: &AttributesFields) -> bool
    ensures { result ≡ are_good attributes.now }
{
    fits_32(attributes.mode)
        && fits_32(attributes.uid)
        && fits_32(attributes.gid)
        && fits_32(attributes.ttl_sec)
        && attributes.file_size <= MAX_FILE_SIZE
        && attributes.mime.len() <= MAX_MIME
        && (attributes.md5.is_empty() || attributes.md5.len() == DIGEST)
}

fn fits_32(value: u64) -> bool
    ensures { result ≡ nat_lt value (2 ^ 32) }
{
    value <= u64::from(u32::MAX)
}

/// The attributes of values that fit.
pub fn good_attributes(alloc: Global, fields: &AttributesFields) -> Result<Attributes, AllocError>
    requires { IsTrue (are_good fields.now) }
    ensures { IfOk result (λ made. made ≡ attributes_of fields.now) }
{
    Ok(Attributes {
        file_size: fields.file_size,
        mtime: fields.mtime,
        mode: fields.mode as u32,
        uid: fields.uid as u32,
        gid: fields.gid as u32,
        crtime: fields.crtime,
        mime: Mime::new(alloc, fields.mime)?,
        ttl_sec: fields.ttl_sec as u32,
        md5: digest_of(fields.md5),
    })
}

/// The digest of these bytes, none where there are none.
fn digest_of(bytes: &[u8]) -> Option<[u8; DIGEST]>
    requires { IsTrue ((length bytes.now == 0) || (length bytes.now == 16)) }
    ensures { result ≡ (if length bytes.now == 0 then None else Some bytes.now) }
{
    if bytes.is_empty() {
        return None;
    }
    let mut digest = [0; DIGEST];
    digest.copy_from_slice(bytes);
    Some(digest)
}
