//! A volume that is made, written to, read from and deleted from.

use super::*;

/// Its index, after the needle was deleted.
const TWO_ENTRIES: &[u8; 32] =
    b"\0\0\0\0\0\0\0\x01\0\0\0\x01\0\0\0\x0e\0\0\0\0\0\0\0\x01\0\0\0\x07\xff\xff\xff\xff";

#[test]
fn a_new_volume_is_a_superblock(rt: HostRuntime) -> Result<(), Fail> {
    let alloc = rt.alloc();
    let mut disk = disk_of(alloc, &[])?;
    let volume = create(alloc, &mut disk)?;
    check(
        &rt,
        has(&disk, b"3.dat", EMPTY)? && volume.garbage_permille() == 0,
    );
    let again = create(alloc, &mut disk).err();
    check(&rt, again == Some(VolumeFault::AlreadyThere));
    Ok(())
}

#[test]
fn a_needle_is_written_behind_it(rt: HostRuntime) -> Result<(), Fail> {
    let alloc = rt.alloc();
    let mut disk = disk_of(alloc, &[])?;
    let mut volume = create(alloc, &mut disk)?;
    let refused = put(alloc, &mut disk, &mut volume, 1, b"").err();
    check(&rt, refused == Some(VolumeFault::EmptyData));
    let written = put(alloc, &mut disk, &mut volume, 1, b"123456789")?;
    let is_first = written.at == 8 && written.size == 14 && written.checksum == 0xe306_9283;
    check(&rt, is_first && volume.end() == 56);
    let is_there = has(&disk, b"3.dat", WITH_ONE)? && has(&disk, b"3.idx", ONE_ENTRY)?;
    check(&rt, is_there);
    let refused = refusal(alloc, &mut disk, &mut volume, 1, 1);
    check(
        &rt,
        refused == Some(VolumeFault::WrongCookie { held: COOKIE }),
    );
    Ok(())
}

#[test]
fn a_needle_is_deleted(rt: HostRuntime) -> Result<(), Fail> {
    let alloc = rt.alloc();
    let mut disk = disk_of(alloc, &[])?;
    let mut volume = create(alloc, &mut disk)?;
    let _ = put(alloc, &mut disk, &mut volume, 1, b"123456789")?;
    let length = volume.delete(alloc, &mut disk, 1, COOKIE, 0)?;
    check(&rt, length == 9 && volume.end() == 88);
    check(&rt, has(&disk, b"3.idx", TWO_ENTRIES)?);
    check(&rt, volume.garbage_permille() == 1000);
    let refused = refusal(alloc, &mut disk, &mut volume, 1, COOKIE);
    check(&rt, refused == Some(VolumeFault::NotHeld));
    Ok(())
}
