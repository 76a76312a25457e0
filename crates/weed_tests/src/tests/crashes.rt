use super::*;

const PICKS: [Pick; 4] = [Pick::Old, Pick::New, Pick::Fill(0), Pick::Fill(1)];

/// How many answers had been handed over at a tick. Each is one piece.
fn answered_at(host: &MemHost, tick: u64) -> usize {
    let pieces = host.pieces().iter();
    pieces.filter(|piece| piece.tick() <= tick).count()
}

/// Whether a run without input over that disk is done and leaves a log that begins as the other, but for its last
/// gate.
fn keeps(alloc: Global, disk: MemDisk, log: &[u8]) -> Result<bool, Fail> {
    let again = run_over(alloc, b"", disk, &FIVE_SECONDS)?;
    let front = &log[..log.len().saturating_sub(1)];
    Ok(again.status == 0 && again.log().starts_with(front))
}

/// Checks that whatever a crash at that tick leaves, it keeps what was acknowledged.
fn check_kept(rt: &impl Abort, alloc: Global, ran: &Ran, tick: u64) -> Result<(), Fail> {
    let each = THREE.len() / 3;
    let answered = answered_at(&ran.host, tick);
    let first = run_once(alloc, &THREE[..answered.min(3) * each])?;
    for pick in PICKS {
        let is_kept = keeps(alloc, ran.image(tick, pick)?, first.log())?;
        check(rt, is_kept);
    }
    Ok(())
}

#[test]
fn a_crash_at_any_tick_leaves_what_was_acknowledged(rt: HostRuntime) -> Result<(), Fail> {
    let ran = run_once(rt.alloc(), THREE)?;
    for tick in 0..=ran.host.disk().tick() {
        check_kept(&rt, rt.alloc(), &ran, tick)?;
    }
    Ok(())
}

/// Whether the run is done, or ended in a fault of its disk and sent no other answer.
fn ends_as_its_disk(ran: &Ran) -> bool {
    if ran.host.disk().faults() == 0 {
        return ran.status == 0 && ran.sent() == MADE;
    }
    ran.status == 2 && (ran.sent().is_empty() || ran.sent() == DISK_FAULT)
}

/// Runs the first request over a disk of which that call fails, and checks how it ends.
fn check_fault(rt: &impl Abort, alloc: Global, call: u64) -> Result<(), Fail> {
    let disk = MemDisk::new(alloc, Vec::new(alloc), vec![in alloc; call]?)?;
    let ran = run_over(alloc, MAKE, disk, &FIVE_SECONDS)?;
    check(rt, ends_as_its_disk(&ran));
    for pick in PICKS {
        let again = run_over(alloc, MAKE, ran.image(u64::MAX, pick)?, &FIVE_SECONDS)?;
        check(rt, again.status == 0 && again.sent() == MADE);
    }
    Ok(())
}

#[test]
fn each_call_of_the_disk_may_fail(rt: HostRuntime) -> Result<(), Fail> {
    for call in 0..30 {
        check_fault(&rt, rt.alloc(), call)?;
    }
    Ok(())
}
