//! A volume that is opened.

use super::*;
use volume::{Mode, Opened};

/// The files of volume 3, with something behind its item.
fn ragged(alloc: Global) -> Result<MemDisk, Fail> {
    let mut items = Vec::new(alloc);
    items.extend_from_slice(WITH_ONE)?;
    items.extend_from_slice(&[1; 5])?;
    disk_of(
        alloc,
        &[(b"3.dat", &items), (b"3.idx", ONE_ENTRY), (b"3.vif", b"")],
    )
}

#[test]
fn what_stands_behind_the_last_item_is_cut(rt: HostRuntime) -> Result<(), Fail> {
    let alloc = rt.alloc();
    let mut disk = ragged(alloc)?;
    let (mut volume, opened) = Volume::open(alloc, &mut disk, 3, Mode::ReadWrite)?;
    let wanted = Opened {
        cut_from: Some(56),
        rewrote_index: false,
    };
    check(&rt, opened == wanted && has(&disk, b"3.dat", WITH_ONE)?);
    let needle = volume.read(alloc, &mut disk, 1, COOKIE)?;
    check(&rt, needle.body.as_slice() == b"123456789".as_slice());
    Ok(())
}

#[test]
fn a_volume_that_is_not_there_is_not_opened(rt: HostRuntime) -> Result<(), Fail> {
    let alloc = rt.alloc();
    let mut disk = ragged(alloc)?;
    let refused = Volume::open(alloc, &mut disk, 4, Mode::ReadOnly).err();
    check(&rt, refused == Some(VolumeFault::NotThere));
    Ok(())
}
