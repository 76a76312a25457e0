ghost use Rattle.std.specs.Prelude.{◌≡◌, ◌≤◌, false, length, IfOk};
ghost use Rattle.std.specs.Bool.{OnTrue};
ghost use Rattle.meta_log.specs.Kept.{HoldsMetaLog};

use super::*;
use meta_log::{GateText, MetaLog};

/// The text of a record of a small time that makes `/a`.
fn made_at(time: u8) -> [u8; 25] {
    [
        0x08, time, 0x12, 0x15, 0x0a, 0x01, 0x2f, 0x12, 0x10, 0x12, 0x0e, 0x0a, 0x01, 0x61, 0x10,
        0x01, 0x22, 0x07, 0x10, 0x05, 0x18, 0xed, 0x03, 0x30, 0x05,
    ]
}

/// Appends the record of that time, and answers whether the disk took it.
fn add<D: Disk>(alloc: Global, meta: &mut MetaLog, disk: &mut D, time: u8) -> Result<bool, Fail>
    requires { HoldsMetaLog (D.files disk.old) meta.old }
    ensures { IfOk result (λ taken. OnTrue taken (HoldsMetaLog (D.files disk.new) meta.new)) }
{
    let text = made_at(time);
    let known = records::read_record(alloc, &text).map_err(|_| "no record")?;
    if known.time <= meta.front().time {
        return Err("a time that doesn't rise".into());
    }
    let ready = GateText::make(alloc, &text)?;
    Ok(meta.append(disk, known.time, &ready).is_ok())
}

/// How many records are found in what a crash at a tick leaves.
fn count_after_crash(alloc: Global, disk: &MemDisk, tick: u64, pick: Pick) -> Result<u64, Fail> {
    let mut image = image(disk, tick, pick)?;
    Ok(MetaLog::open(alloc, &mut image)?.front().count)
}

/// How many records a crash at a tick leaves, where the second record's append begins at that tick: in place of
/// what wasn't settled there is what was before, what was written, or ones.
fn wanted_after(tick: u64, begin: u64) -> [u64; 3] {
    match tick.saturating_sub(begin) {
        0..=2 => [1, 1, 1],
        3 => [1, 2, 2],
        _ => [2, 2, 2],
    }
}

#[test]
fn a_crash_during_an_append_leaves_the_record_out_or_in(rt: HostRuntime) -> Result<(), Fail> {
    let alloc = rt.alloc();
    let mut disk = disk_of(alloc, &[])?;
    let mut meta = MetaLog::open(alloc, &mut disk)?;
    assert!(rt; add(alloc, &mut meta, &mut disk, 50)?);
    let begin = disk.tick();
    assert!(rt; add(alloc, &mut meta, &mut disk, 51)?);
    for tick in begin..=disk.tick() {
        for (pick, wanted) in [Pick::Old, Pick::New, Pick::Fill(1)]
            .into_iter()
            .zip(wanted_after(tick, begin))
        {
            check(&rt, count_after_crash(alloc, &disk, tick, pick)? == wanted);
        }
    }
    Ok(())
}

/// How many texts are read past a time.
fn count_after(
    alloc: Global,
    meta: &MetaLog,
    disk: &mut MemDisk,
    after: u64,
) -> Result<usize, Fail> {
    let texts = meta.read_after(alloc, disk, after, 10)?;
    Ok(texts.as_slice().len())
}

#[test]
fn records_past_a_time_are_read(rt: HostRuntime) -> Result<(), Fail> {
    let alloc = rt.alloc();
    let mut disk = disk_of(alloc, &[])?;
    let mut meta = MetaLog::open(alloc, &mut disk)?;
    assert!(rt; add(alloc, &mut meta, &mut disk, 50)?);
    assert!(rt; add(alloc, &mut meta, &mut disk, 51)?);
    check(&rt, meta.front().count == 2 && meta.front().time == 51);
    check(&rt, count_after(alloc, &meta, &mut disk, 0)? == 2);
    check(&rt, count_after(alloc, &meta, &mut disk, 50)? == 1);
    check(&rt, count_after(alloc, &meta, &mut disk, 51)? == 0);
    let (texts, next) = meta.read_from(alloc, &mut disk, meta.start(), 1)?;
    check(&rt, texts.as_slice().len() == 1 && next.at == 30);
    Ok(())
}
