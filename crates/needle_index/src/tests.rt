use crate::entry::IndexEntry;
use crate::fault::IndexFault;
use crate::index_map::IndexMap;
use crate::spot::Spot;
use std::test::Fail;

#[test]
fn an_entry_has_16_bytes(rt: HostRuntime) {
    let bytes = [0, 0, 0, 0, 0, 0, 0, 1, 0, 0, 0, 1, 0, 0, 0, 14];
    let entry = IndexEntry::at(8, 1, 14);
    assert_eq!(rt; entry.write(), bytes);
    assert!(rt; IndexEntry::read(&bytes) == entry);
}

#[test]
fn a_text_that_ends_inside_an_entry_is_refused(rt: HostRuntime) {
    let refused = IndexMap::load(rt.alloc(), &[0; 17]).err();
    assert!(rt; refused == Some(IndexFault::Ragged { length: 17 }));
}

#[test]
fn later_entries_win_and_the_greatest_size_removes(rt: HostRuntime) -> Result<(), Fail> {
    let text = b"\0\0\0\0\0\0\0\x01\0\0\0\x01\0\0\0\x0e\
        \0\0\0\0\0\0\0\x02\0\0\0\x07\0\0\0\x05\
        \0\0\0\0\0\0\0\x01\0\0\0\x07\0\0\0\x05\
        \0\0\0\0\0\0\0\x02\0\0\0\x09\xff\xff\xff\xff";
    let map = IndexMap::load(rt.alloc(), text)?;
    let last = Spot { offset: 7, size: 5 };
    assert!(rt; map.get(1) == Some(last) && map.get(2).is_none());
    Ok(())
}
