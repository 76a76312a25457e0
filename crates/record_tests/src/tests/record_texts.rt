use super::*;
use records::{RecordFault, read_record, record_length, write_record};

/// The text of the record that makes `/a` and `/a/b` five seconds after 1970.
const FIRST_RECORD: [u8; 53] = [
    0x08, 0x80, 0xe4, 0x97, 0xd0, 0x12, 0x12, 0x15, 0x0a, 0x01, b'/', 0x12, 0x10, 0x12, 0x0e, 0x0a,
    0x01, b'a', 0x10, 0x01, 0x22, 0x07, 0x10, 0x05, 0x18, 0xed, 0x03, 0x30, 0x05, 0x12, 0x16, 0x0a,
    0x02, b'/', b'a', 0x12, 0x10, 0x12, 0x0e, 0x0a, 0x01, b'b', 0x10, 0x01, 0x22, 0x07, 0x10, 0x05,
    0x18, 0xed, 0x03, 0x30, 0x05,
];

#[test]
fn a_record_is_read_and_written_the_same(rt: HostRuntime) -> Result<(), Fail> {
    let read = read_record(rt.alloc(), &FIRST_RECORD).map_err(|_| "no record")?;
    check(
        &rt,
        read.time == 5_000_000_000 && read.changes.as_slice().len() == 2,
    );
    check(&rt, record_length(&read) == 53);
    let text = write_record(rt.alloc(), &read)?;
    check(&rt, text.as_slice() == FIRST_RECORD.as_slice());
    Ok(())
}

#[test]
fn an_empty_text_is_no_record(rt: HostRuntime) {
    let read = read_record(rt.alloc(), b"");
    check(&rt, matches!(read, Err(RecordFault::BadRecord)));
}
