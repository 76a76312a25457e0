use std::alloc::Global;
use std::process::Abort;
use std::test::Fail;
use weed_base::{Bytes, Disk, FileName, MemDisk, NamedBytes, Pick};

mod disk_frame;
mod fields;
mod images;
mod link_frame;
mod logs;
mod paths;

fn check(rt: &impl Abort, is_so: bool) {
    assert!(rt; is_so);
}

fn name(text: &[u8]) -> Result<FileName, Fail> {
    Ok(FileName::new(text).ok_or("no name of a file")?)
}

/// A disk of these files.
fn disk_of(alloc: Global, files: &[(&[u8], &[u8])]) -> Result<MemDisk, Fail> {
    let mut named = Vec::new(alloc);
    for (file, bytes) in files {
        let bytes = Bytes::new(alloc, bytes)?;
        named.push(NamedBytes {
            name: name(file)?,
            bytes,
        })?;
    }
    Ok(MemDisk::new(alloc, named, Vec::new(alloc))?)
}

/// What a crash at that tick, or at the present one, leaves.
fn image(disk: &MemDisk, tick: u64, pick: Pick) -> Result<MemDisk, Fail> {
    Ok(disk.image(tick.min(disk.tick()), pick)?)
}
