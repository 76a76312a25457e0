ghost use Rattle.std.specs.Prelude.{◌≡◌, false, IfOk, IfSome};
ghost use Rattle.volume.specs.Holds.{HoldsUnlessBroken};
ghost use Rattle.volume.specs.Writes.{HasSmallParts};

use needle::{Needle, Placement};
use std::alloc::{AllocError, Global};
use std::process::Abort;
use std::test::Fail;
use volume::{Volume, VolumeFault, Written};
use weed_base::{Bytes, Disk, FileName, MemDisk, NamedBytes};

mod mended;
mod written;

const COOKIE: u32 = 0x6370_37d6;

/// The file of a new volume's items.
const EMPTY: &[u8; 8] = b"\x03\0\0\0\0\0\0\0";

/// The same with nine bytes of data under key 1.
const WITH_ONE: &[u8; 56] =
    b"\x03\0\0\0\0\0\0\0\x63\x70\x37\xd6\0\0\0\0\0\0\0\x01\0\0\0\x0e\0\0\0\x09123456789\0\xe3\x06\x92\x83\0\0\0\0\0\0\0\0\0\0\0\0\0\0";

/// Its index.
const ONE_ENTRY: &[u8; 16] = b"\0\0\0\0\0\0\0\x01\0\0\0\x01\0\0\0\x0e";

fn check(rt: &impl Abort, is_so: bool) {
    assert!(rt; is_so);
}

fn name(text: &[u8]) -> Result<FileName, Fail> {
    Ok(FileName::new(text).ok_or("no name of a file")?)
}

/// A disk of these files.
fn disk_of(alloc: Global, files: &[(&[u8], &[u8])]) -> Result<MemDisk, Fail> {
    let mut named = Vec::new(alloc);
    for (file, bytes) in files {
        let bytes = Bytes::new(alloc, bytes)?;
        named.push(NamedBytes {
            name: name(file)?,
            bytes,
        })?;
    }
    Ok(MemDisk::new(alloc, named, Vec::new(alloc))?)
}

/// Whether a file has these bytes.
fn has(disk: &MemDisk, file: &[u8], bytes: &[u8]) -> Result<bool, Fail> {
    Ok(disk.content(&name(file)?) == Some(bytes))
}

/// A needle of nothing but data.
fn plain(alloc: Global, key: u64, data: &[u8]) -> Result<Needle, AllocError>
    ensures { IfOk result HasSmallParts }
{
    Ok(Needle {
        cookie: COOKIE,
        key,
        body: Bytes::new(alloc, data)?,
        name: None,
        mime: None,
        modified: None,
        ttl: None,
        pairs: None,
    })
}

/// A new volume 3.
fn create<D: Disk>(alloc: Global, disk: &mut D) -> Result<Volume, VolumeFault>
    requires marks { D.MARKS_ONLY ≡ false }
    ensures kept { IfOk result (λ volume. IfSome (D.files disk.new) (HoldsUnlessBroken volume)) }
{
    let single = Placement { x: 0, y: 0, z: 0 };
    Volume::create(alloc, disk, 3, single, [0, 0])
}

/// Writes data under a key.
fn put<D: Disk>(
    alloc: Global,
    disk: &mut D,
    volume: &mut Volume,
    key: u64,
    data: &[u8],
) -> Result<Written, VolumeFault>
    requires held { IfSome (D.files disk.old) (HoldsUnlessBroken volume.old) }
    ensures kept { IfSome (D.files disk.new) (HoldsUnlessBroken volume.new) }
{
    let needle = plain(alloc, key, data)?;
    volume.write(alloc, disk, &needle, 0)
}

/// The refusal of a read under a key and a cookie.
fn refusal<D: Disk>(
    alloc: Global,
    disk: &mut D,
    volume: &mut Volume,
    key: u64,
    cookie: u32,
) -> Option<VolumeFault>
    requires held { IfSome (D.files disk.old) (HoldsUnlessBroken volume.old) }
    ensures kept { IfSome (D.files disk.new) (HoldsUnlessBroken volume.new) }
{
    volume.read(alloc, disk, key, cookie).err()
}
