//! Items beside texts that another program made.

use super::*;
use std::alloc::Global;
use std::test::Fail;
use weed_base::Bytes;

const PLAIN: &[u8; 40] =
    b"\x63\x70\x37\xd6\0\0\0\0\0\0\0\x01\0\0\0\x0e\0\0\0\x09123456789\0\xe3\x06\x92\x83\0\0\0\0\0\0";

const PLAIN_V3: &[u8; 48] =
    b"\x63\x70\x37\xd6\0\0\0\0\0\0\0\x01\0\0\0\x0e\0\0\0\x09123456789\0\xe3\x06\x92\x83\x01\x02\x03\x04\x05\x06\x07\x08\0\0\0\0\0\0";

const FULL_V3: &[u8; 64] =
    b"\0\0\0\x07\x01\x02\x03\x04\x05\x06\x07\x08\0\0\0\x23\0\0\0\x09123456789\x3e\x05n.txt\x03a/b\x01\x02\x03\x04\x05\x03\x04\0\x02{}\xe3\x06\x92\x83\0\0\0\0\0\0\0\x09\0";

const GONE: &[u8; 24] = b"\0\0\0\x07\0\0\0\0\0\0\0\x08\0\0\0\0\0\0\0\0\0\0\0\0";

const GONE_V3: &[u8; 32] =
    b"\0\0\0\x07\0\0\0\0\0\0\0\x08\0\0\0\0\0\0\0\0\0\0\0\0\0\0\0\x09\0\0\0\0";

fn live(alloc: Global, text: &[u8]) -> Result<Needle, Fail> {
    match Needle::read(alloc, text, Version::V2)?.item {
        Item::Live(needle) => Ok(needle),
        Item::Gone { .. } => Err("a deletion")?,
    }
}

/// The fault of the plain item with one byte changed.
fn fault_with(alloc: Global, place: usize, byte: u8) -> Option<NeedleFault> {
    let mut text = *PLAIN;
    if place < text.len() {
        text[place] = byte;
    }
    Needle::read(alloc, &text, Version::V2).err()
}

#[test]
fn a_needle_is_written_in_both_versions(rt: HostRuntime) -> Result<(), Fail> {
    let alloc = rt.alloc();
    let item = Item::Live(Needle {
        cookie: 0x6370_37d6,
        key: 1,
        body: Bytes::new(alloc, b"123456789")?,
        name: None,
        mime: None,
        modified: None,
        ttl: None,
        pairs: None,
    });
    let old = Needle::write(alloc, &item, Version::V2, 9)?;
    assert_eq!(rt; old.as_slice(), PLAIN.as_slice());
    let new = Needle::write(alloc, &item, Version::V3, 0x0102_0304_0506_0708)?;
    assert_eq!(rt; new.as_slice(), PLAIN_V3.as_slice());
    Ok(())
}

#[test]
fn every_part_is_written(rt: HostRuntime) -> Result<(), Fail> {
    let alloc = rt.alloc();
    let item = Item::Live(Needle {
        cookie: 7,
        key: 0x0102_0304_0506_0708,
        body: Bytes::new(alloc, b"123456789")?,
        name: Some(Bytes::new(alloc, b"n.txt")?),
        mime: Some(Bytes::new(alloc, b"a/b")?),
        modified: Some(0x01_0203_0405),
        ttl: Some([3, 4]),
        pairs: Some(Bytes::new(alloc, b"{}")?),
    });
    let text = Needle::write(alloc, &item, Version::V3, 9)?;
    assert_eq!(rt; text.as_slice(), FULL_V3.as_slice());
    Ok(())
}

#[test]
fn a_needle_is_read(rt: HostRuntime) -> Result<(), Fail> {
    let needle = live(rt.alloc(), PLAIN)?;
    let is_head = needle.cookie == 0x6370_37d6 && needle.key == 1;
    assert!(rt; is_head && needle.body.as_slice() == b"123456789".as_slice());
    Ok(())
}

#[test]
fn a_deletion_is_written_and_read(rt: HostRuntime) -> Result<(), Fail> {
    let old = DeletionText::new(7, 8, Version::V2, 9);
    assert!(rt; old.as_slice() == GONE.as_slice());
    let new = DeletionText::new(7, 8, Version::V3, 9);
    assert!(rt; new.as_slice() == GONE_V3.as_slice());
    let read = Needle::read(rt.alloc(), GONE_V3, Version::V3)?;
    assert!(rt; matches!(read.item, Item::Gone { cookie: 7, key: 8 }) && read.taken == 32);
    Ok(())
}

/// Changed bytes of the plain item, and what is told of them.
const FAULTS: [(usize, u8, Option<NeedleFault>); 9] = [
    (15, 13, Some(NeedleFault::SizeMismatch)),
    (15, 3, Some(NeedleFault::SizeMismatch)),
    (19, 0, Some(NeedleFault::SizeMismatch)),
    (29, 0x50, Some(NeedleFault::SizeMismatch)),
    (29, 0xc1, Some(NeedleFault::ReservedSet)),
    (29, 0x81, Some(NeedleFault::Compressed)),
    (29, 0x80, Some(NeedleFault::Manifest)),
    (
        28,
        b'8',
        Some(NeedleFault::ChecksumMismatch {
            stored: 0xe306_9283,
            computed: 0x116d_1180,
        }),
    ),
    // The padding may be of any bytes.
    (39, 5, None),
];

#[test]
fn changed_items_are_refused(rt: HostRuntime) {
    for (place, byte, fault) in FAULTS {
        assert!(rt; fault_with(rt.alloc(), place, byte) == fault);
    }
}

/// The plain item in pieces.
#[test]
fn pieces_are_checked(rt: HostRuntime) {
    let text = &PLAIN[..];
    let head = Head::read(text);
    let mut sum = Checksum::new();
    sum.add(b"1234");
    sum.add(b"56789");
    let tail = &text[29..];
    let end = 20 + u64::from(head.data_behind()) + tail.len() as u64;
    assert!(rt; padded_len(head.size, Version::V2) <= end);
    assert!(rt; head.check(Version::V2, sum.value(), tail).is_ok());
}
