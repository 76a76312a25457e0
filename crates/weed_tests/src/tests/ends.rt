use super::*;

/// Whether the end has that status and line, told in pieces of three bytes.
fn is_told(alloc: Global, exit: &Exit, status: u8, line: &[u8]) -> bool {
    let mut sink = MemSink::new(alloc, Vec::new(alloc)).with_most(3);
    exit.tell(&mut sink).is_ok() && sink.written() == line && exit.status() == status
}

#[test]
fn each_end_has_its_status_and_line(rt: HostRuntime) -> Result<(), Fail> {
    let alloc = rt.alloc();
    let file = FileName::new(b"log.00000001").ok_or("no name")?;
    let damaged = Exit::Damaged { file, at: 0 };
    check(&rt, is_told(alloc, &Exit::Done, 0, b""));
    check(
        &rt,
        is_told(
            alloc,
            &Exit::BadWords { place: 1 },
            1,
            b"weed: bad word 1\n",
        ),
    );
    check(
        &rt,
        is_told(alloc, &Exit::DiskFault, 2, b"weed: disk fault\n"),
    );
    check(
        &rt,
        is_told(alloc, &damaged, 3, b"weed: damaged log.00000001 at 0\n"),
    );
    check(
        &rt,
        is_told(alloc, &Exit::ReadFault, 5, b"weed: read fault\n"),
    );
    check(
        &rt,
        is_told(alloc, &Exit::WriteFault, 6, b"weed: write fault\n"),
    );
    check(
        &rt,
        is_told(alloc, &Exit::Memory, 7, b"weed: out of memory\n"),
    );
    check(
        &rt,
        is_told(alloc, &Exit::TurnsSpent, 15, b"weed: turns spent\n"),
    );
    Ok(())
}
