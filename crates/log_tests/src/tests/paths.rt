use super::*;
use weed_base::{Name, Path};

/// What a read answers: the name of its fault, or that it is a path.
fn answer_to(alloc: Global, text: &[u8]) -> &'static str {
    match Path::read(alloc, text) {
        Ok(_) => "a path",
        Err(fault) => fault.name(),
    }
}

/// What a join to `/a` answers: the name of its fault, or that it is a path.
fn answer_to_join(alloc: Global, name: &[u8]) -> Result<&'static str, Fail> {
    let path = Path::read(alloc, b"/a")?;
    let name = Name::new(alloc, name)?;
    Ok(match path.join(alloc, &name) {
        Ok(_) => "a path",
        Err(fault) => fault.name(),
    })
}

const TEXTS: [(&[u8], &str); 4] = [
    (b"", "NotAbsolute"),
    (b"/a/", "EmptyPart"),
    (b"/a/b", "a path"),
    (b"/", "a path"),
];

#[test]
fn a_text_is_a_path_or_its_fault_is_named(rt: HostRuntime) -> Result<(), Fail> {
    let alloc = rt.alloc();
    for (text, answer) in TEXTS {
        check(&rt, answer_to(alloc, text) == answer);
    }
    let mut part = [b'a'; 257];
    part[0] = b'/';
    check(&rt, answer_to(alloc, &part) == "PartTooLong");
    let deep = b"/a".repeat(alloc, 65)?;
    check(&rt, answer_to(alloc, &deep) == "TooDeep");
    Ok(())
}

#[test]
fn a_name_is_joined_or_its_fault_is_named(rt: HostRuntime) -> Result<(), Fail> {
    let alloc = rt.alloc();
    check(&rt, answer_to_join(alloc, b"b")? == "a path");
    check(&rt, answer_to_join(alloc, b"..")? == "DotPart");
    check(&rt, answer_to_join(alloc, b"b/c")? == "SlashInName");
    Ok(())
}

#[test]
fn a_path_has_a_parent_but_the_root(rt: HostRuntime) -> Result<(), Fail> {
    let path = Path::read(rt.alloc(), b"/a/b")?;
    let parent = path.parent(rt.alloc())?.ok_or("no parent")?;
    check(&rt, parent.text() == b"/a".as_slice());
    let root = Path::root(rt.alloc());
    check(&rt, root.parent(rt.alloc())?.is_none());
    Ok(())
}
