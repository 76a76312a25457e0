use super::*;
use entry::{Entry, EntryFault};

/// A file `a` with a chunk of ten bytes that names no needle.
const WITHOUT_FILE_ID: [u8; 7] = [0x0a, 0x01, b'a', 0x1a, 0x02, 0x18, 0x0a];

/// The same with the needle 1 of volume 1.
const WITH_FILE_ID: [u8; 13] = [
    0x0a, 0x01, b'a', 0x1a, 0x08, 0x18, 0x0a, 0x3a, 0x04, 0x08, 0x01, 0x10, 0x01,
];

#[test]
fn a_chunk_without_a_file_id_is_bad(rt: HostRuntime) {
    let read = Entry::read(rt.alloc(), &WITHOUT_FILE_ID);
    check(&rt, matches!(read, Err(EntryFault::BadEntry)));
}

#[test]
fn a_chunk_with_a_file_id_is_read(rt: HostRuntime) -> Result<(), Fail> {
    let (name, file) = Entry::read(rt.alloc(), &WITH_FILE_ID).map_err(|_| "no entry")?;
    check(&rt, name.as_slice() == b"a".as_slice() && file.is_file());
    check(&rt, file.chunks.as_slice().len() == 1);
    Ok(())
}
