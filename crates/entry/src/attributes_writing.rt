ghost use Rattle.std.specs.Prelude.{◌≡◌, [], IfSome, OnOk, length, unwrap_or};
ghost use Rattle.entry.specs.AttributesText.{FitTypes, attributes_text};

use crate::entry::Attributes;
use proto_wire::Writer;
use std::alloc::AllocError;

/// Writes FuseAttributes into an empty writer.
pub fn write_attributes(into: &mut Writer, attributes: &Attributes) -> Result<(), AllocError>
    requires { into.old ≡ [] }
    ensures text { OnOk result (into.new ≡ attributes_text attributes.now) }
    ensures fits { OnOk result (FitTypes attributes.now) }
{
    into.varint(1, attributes.file_size)?;
    into.varint(2, attributes.mtime)?;
    into.varint(3, u64::from(attributes.mode))?;
    into.varint(4, u64::from(attributes.uid))?;
    into.varint(5, u64::from(attributes.gid))?;
    into.varint(6, attributes.crtime)?;
    into.bytes(7, attributes.mime.as_slice())?;
    into.varint(10, u64::from(attributes.ttl_sec))?;
    into.bytes(14, digest_of(attributes))
}

/// The bytes of the digest, none where it isn't known.
fn digest_of(attributes: &Attributes) -> &[u8]
    ensures digest { result.now ≡ unwrap_or attributes.now.md5 [] }
    ensures fits { IfSome attributes.now.md5 (λ digest. length digest ≡ 16) }
{
    match &attributes.md5 {
        Some(digest) => digest,
        None => &[],
    }
}
