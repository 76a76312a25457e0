use super::*;
use proto_wire::write_frame;
use weed_base::MemSink;

/// The message of the file id `3,01637037d6`, behind its length.
const FRAME: [u8; 13] = [
    0, 0, 0, 9, 0x08, 0x03, 0x10, 0x01, 0x1d, 0xd6, 0x37, 0x70, 0x63,
];

#[test]
fn a_message_is_framed_by_its_length(rt: HostRuntime) -> Result<(), Fail> {
    let mut sink = MemSink::new(rt.alloc(), Vec::new(rt.alloc()));
    let framed = write_frame(&mut sink, &FRAME[4..]).is_ok();
    check(&rt, framed && sink.written() == FRAME.as_slice());
    Ok(())
}
