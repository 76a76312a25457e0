use super::*;
use weed_base::Failed;

/// Writes where the file is there and long enough.
fn write_at<D: Disk>(disk: &mut D, file: &FileName, at: u64, piece: &[u8]) -> Result<(), Failed> {
    match disk.size(file)? {
        Some(size) if at <= size => disk.write_at(file, at, piece),
        _ => Err(Failed),
    }
}

/// Checks how the file stands in each kind of image as of now. What is filled is `?`.
fn check_images(
    rt: &impl Abort,
    disk: &MemDisk,
    file: &FileName,
    wanted: [Option<&[u8]>; 3],
) -> Result<(), Fail> {
    let picks = [Pick::Old, Pick::New, Pick::Fill(b'?')];
    for (pick, bytes) in picks.into_iter().zip(wanted) {
        check(rt, image(disk, u64::MAX, pick)?.content(file) == bytes);
    }
    Ok(())
}

#[test]
fn what_is_unsettled_is_lost_or_kept_or_anything(rt: HostRuntime) -> Result<(), Fail> {
    let (a, b) = (name(b"a")?, name(b"b")?);
    let mut disk = disk_of(rt.alloc(), &[(b"b", b"old")])?;
    write_at(&mut disk, &b, 2, b"XY")?;
    disk.make(&a)?;
    check_images(&rt, &disk, &a, [None, Some(b""), Some(b"")])?;
    check_images(&rt, &disk, &b, [Some(b"old"), Some(b"olXY"), Some(b"ol??")])?;
    disk.sync()?;
    write_at(&mut disk, &b, 0, b"Z")?;
    check_images(
        &rt,
        &disk,
        &b,
        [Some(b"olXY"), Some(b"ZlXY"), Some(b"?lXY")],
    )?;
    disk.fail_from(0);
    check(&rt, disk.remove(&b).is_err());
    check_images(
        &rt,
        &disk,
        &b,
        [Some(b"olXY"), Some(b"ZlXY"), Some(b"?lXY")],
    )
}
