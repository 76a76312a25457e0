use super::*;
use proto_wire::{Reader, Value, WireFault, Writer};

/// The message of the file id `3,01637037d6`.
const FILE_ID: [u8; 9] = [0x08, 0x03, 0x10, 0x01, 0x1d, 0xd6, 0x37, 0x70, 0x63];

#[test]
fn a_file_id_is_written(rt: HostRuntime) -> Result<(), Fail> {
    let mut writer = Writer::new(rt.alloc());
    writer.varint(1, 3)?;
    writer.varint(2, 1)?;
    writer.fixed32(3, 0x6370_37d6)?;
    check(&rt, writer.done().as_slice() == FILE_ID.as_slice());
    Ok(())
}

/// Whether the next field has that number and value.
fn is_next(reader: &mut Reader<'_>, number: u32, value: &Value<'_>) -> bool {
    match reader.next() {
        Ok(Some(field)) => field.number == number && field.value == *value,
        _ => false,
    }
}

#[test]
fn a_file_id_is_read(rt: HostRuntime) {
    let mut reader = Reader::new(&FILE_ID);
    check(&rt, is_next(&mut reader, 1, &Value::Varint(3)));
    check(&rt, is_next(&mut reader, 2, &Value::Varint(1)));
    check(&rt, is_next(&mut reader, 3, &Value::Fixed32(0x6370_37d6)));
    check(&rt, matches!(reader.next(), Ok(None)));
}

const BAD: [(&[u8], WireFault); 4] = [
    (&[0xff; 11], WireFault::BadVarint),
    (&[0x03], WireFault::BadTag),
    (&[0x0b], WireFault::BadWireType),
    (&[0x08], WireFault::Truncated),
];

#[test]
fn a_bad_text_is_refused_again_and_again(rt: HostRuntime) {
    for (text, fault) in BAD {
        let mut reader = Reader::new(text);
        let first = reader.next().err();
        check(&rt, first == Some(fault) && reader.next().err() == first);
    }
}
