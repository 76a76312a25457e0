use std::alloc::Global;
use std::process::Abort;
use std::test::Fail;
use weed_base::{Disk, FileName, MemClock, MemDisk, MemHost, MemSink, MemSource, Pick, Word};
use weed_command::{Exit, World, weed};

mod crashes;
mod ends;

const MAKE: &[u8] = b"POST /a/b/ HTTP/1.1\r\nHost: x\r\n\r\n";

const MADE: &[u8] =
    b"HTTP/1.1 201 Created\r\nContent-Type: application/json\r\nContent-Length: 12\r\n\r\n{\"name\":\"b\"}";

const DISK_FAULT: &[u8] =
    b"HTTP/1.1 500 Internal Server Error\r\nContent-Type: application/json\r\nContent-Length: 21\r\nConnection: close\r\n\r\n{\"error\":\"DiskFault\"}";

const DOT_PART: &[u8] =
    b"HTTP/1.1 400 Bad Request\r\nContent-Type: application/json\r\nContent-Length: 19\r\nConnection: close\r\n\r\n{\"error\":\"DotPart\"}";

const THREE: &[u8] = b"POST /a/ HTTP/1.1\r\n\r\nPOST /b/ HTTP/1.1\r\n\r\nPOST /c/ HTTP/1.1\r\n\r\n";

/// The file of a log with the one record that makes `/a` and `/a/b` five seconds after 1970.
const ONE_RECORD: [u8; 59] = [
    0x01, 0x00, 0x00, 0x00, 0x35, 0x08, 0x80, 0xe4, 0x97, 0xd0, 0x12, 0x12, 0x15, 0x0a, 0x01, b'/',
    0x12, 0x10, 0x12, 0x0e, 0x0a, 0x01, b'a', 0x10, 0x01, 0x22, 0x07, 0x10, 0x05, 0x18, 0xed, 0x03,
    0x30, 0x05, 0x12, 0x16, 0x0a, 0x02, b'/', b'a', 0x12, 0x10, 0x12, 0x0e, 0x0a, 0x01, b'b', 0x10,
    0x01, 0x22, 0x07, 0x10, 0x05, 0x18, 0xed, 0x03, 0x30, 0x05, 0x00,
];

/// Five seconds after 1970.
const FIVE_SECONDS: [u64; 1] = [5_000_000_000];

/// What a run over memory left.
#[derive(Drop)]
struct Ran {
    status: u8,
    host: MemHost,
}

impl Ran {
    fn sent(&self) -> &[u8] {
        self.host.sent()
    }

    /// The bytes of the log, none where there is none.
    fn log(&self) -> &[u8] {
        match FileName::new(b"log.00000001") {
            Some(name) => self.host.disk().content(&name).unwrap_or_default(),
            None => &[],
        }
    }

    /// Whether the run is done, sent these bytes and left this log.
    fn is(&self, sent: &[u8], log: &[u8]) -> bool {
        self.status == 0 && self.sent() == sent && self.log() == log
    }

    /// What a crash at that tick, or at the end, leaves of the disk.
    fn image(&self, tick: u64, pick: Pick) -> Result<MemDisk, Fail> {
        let disk = self.host.disk();
        Ok(disk.image(tick.min(disk.tick()), pick)?)
    }
}

fn empty_disk(alloc: Global) -> Result<MemDisk, Fail> {
    Ok(MemDisk::new(alloc, Vec::new(alloc), Vec::new(alloc))?)
}

fn words_of_filer_once(alloc: Global) -> Result<Vec<Word>, Fail> {
    let mut words = Vec::new(alloc);
    words.push(Word::new(alloc, b"filer.once")?)?;
    words.push(Word::new(alloc, b"-dir=data")?)?;
    Ok(words)
}

fn world_of(
    alloc: Global,
    input: &[u8],
    disk: MemDisk,
    moments: &[u64],
) -> Result<World<MemSource, MemHost, MemClock>, Fail> {
    let source = MemSource::new(input.to_vec(alloc)?, Vec::new(alloc));
    let clock = clock_of(alloc, moments)?;
    let host = MemHost::new(alloc, disk, Vec::new(alloc));
    Ok(World {
        source,
        host,
        clock,
    })
}

fn clock_of(alloc: Global, moments: &[u64]) -> Result<MemClock, Fail> {
    if moments.is_empty() {
        return Err("no moments".into());
    }
    Ok(MemClock::new(moments.to_vec(alloc)?))
}

/// Runs `filer.once` on these bytes, over that disk and a clock of those moments.
fn run_over(alloc: Global, input: &[u8], disk: MemDisk, moments: &[u64]) -> Result<Ran, Fail> {
    let world = world_of(alloc, input, disk, moments)?;
    let words = words_of_filer_once(alloc)?;
    let (exit, world) = weed(alloc, words.as_slice(), world);
    Ok(Ran {
        status: exit.status(),
        host: world.host,
    })
}

/// Runs it over an empty disk at five seconds after 1970.
fn run_once(alloc: Global, input: &[u8]) -> Result<Ran, Fail> {
    run_over(alloc, input, empty_disk(alloc)?, &FIVE_SECONDS)
}

fn check(rt: &impl Abort, is_so: bool) {
    assert!(rt; is_so);
}

#[test]
fn the_first_run_is_not_out_of_memory_and_a_second_adds_nothing(
    rt: HostRuntime,
) -> Result<(), Fail> {
    let alloc = rt.alloc();
    let first = run_once(alloc, MAKE)?;
    check(&rt, first.is(MADE, &ONE_RECORD));
    let second = run_over(alloc, MAKE, first.image(u64::MAX, Pick::New)?, &[6])?;
    check(&rt, second.is(MADE, &ONE_RECORD));
    Ok(())
}

#[test]
fn an_empty_input_makes_an_empty_log(rt: HostRuntime) -> Result<(), Fail> {
    let ran = run_once(rt.alloc(), b"")?;
    check(&rt, ran.is(b"", b"\0"));
    Ok(())
}

#[test]
fn a_bad_path_is_refused_and_closes(rt: HostRuntime) -> Result<(), Fail> {
    let input = b"POST /a/../b/ HTTP/1.1\r\n\r\nPOST /a/ HTTP/1.1\r\n\r\n";
    let ran = run_once(rt.alloc(), input)?;
    check(&rt, ran.is(DOT_PART, b"\0"));
    Ok(())
}

#[test]
fn times_rise_past_a_clock_that_stands_or_falls(rt: HostRuntime) -> Result<(), Fail> {
    let alloc = rt.alloc();
    let falling = run_over(alloc, THREE, empty_disk(alloc)?, &[50, 50, 20])?;
    let rising = run_over(alloc, THREE, empty_disk(alloc)?, &[50, 51, 52])?;
    check(&rt, falling.log() == rising.log());
    Ok(())
}
