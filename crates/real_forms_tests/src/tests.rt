use real_forms::{DirDisk, SystemClock};
use std::fs;
use std::process::Abort;
use std::test::Fail;
use weed_base::{Clock, Disk, Failed, FileName, Word};

fn check(rt: &impl Abort, is_so: bool) {
    assert!(rt; is_so);
}

fn name(text: &[u8]) -> Result<FileName, Fail> {
    Ok(FileName::new(text).ok_or("no name of a file")?)
}

/// A disk over the directory of that name.
fn attached(rt: HostRuntime, place: &[u8]) -> Result<DirDisk<HostRuntime>, Fail> {
    let mut disk = DirDisk::new(rt);
    disk.attach(&Word::new(rt.alloc(), place)?)?;
    Ok(disk)
}

/// Makes a file, writes and cuts it, and renames it over another one, which then holds `aXY`.
fn fill(disk: &mut DirDisk<HostRuntime>, first: &FileName, last: &FileName) -> Result<(), Failed> {
    disk.make(first)?;
    disk.write_at(first, 0, b"abc")?;
    disk.sync()?;
    finish(disk, first, last)
}

fn finish(
    disk: &mut DirDisk<HostRuntime>,
    first: &FileName,
    last: &FileName,
) -> Result<(), Failed> {
    disk.write_at(first, 1, b"XYZ")?;
    disk.cut(first, 3)?;
    disk.make(last)?;
    disk.rename(first, last)?;
    disk.sync()
}

/// Whether the file holds `aXY`, and is the only one that is listed.
fn is_filled(
    rt: HostRuntime,
    disk: &mut DirDisk<HostRuntime>,
    last: &FileName,
) -> Result<bool, Fail> {
    let mut room = [0; 8];
    let count = disk.read_at(last, 0, &mut room)?;
    let names = disk.names(rt.alloc())?;
    Ok(&room[..count] == b"aXY".as_slice() && names.as_slice().len() == 1)
}

#[test]
fn a_directory_takes_the_calls_of_a_disk(rt: HostRuntime) -> Result<(), Fail> {
    let place = "real_forms_calls";
    let _ = fs::remove_dir_all(&rt, place);
    let last = name(b"b")?;
    fill(&mut attached(rt, place.as_bytes())?, &name(b"a")?, &last)?;
    let mut later = attached(rt, place.as_bytes())?;
    check(&rt, is_filled(rt, &mut later, &last)?);
    later.remove(&last)?;
    check(&rt, later.size(&last)?.is_none());
    fs::remove_dir_all(&rt, place)?;
    Ok(())
}

#[test]
fn a_directory_that_is_not_attached_fails(rt: HostRuntime) -> Result<(), Fail> {
    let mut disk = DirDisk::new(rt);
    check(&rt, disk.size(&name(b"a")?).is_err());
    let below = Word::new(rt.alloc(), b"real_forms_none/below")?;
    check(&rt, disk.attach(&below).is_err());
    check(&rt, disk.faults() == 2);
    Ok(())
}

#[test]
fn the_system_has_a_clock_past_2020(rt: HostRuntime) {
    check(&rt, SystemClock::new(rt).now() > 1_577_836_800_000_000_000);
}
