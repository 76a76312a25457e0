use super::*;
use proto_wire::{FrameFault, read_frame};
use weed_base::MemSource;

/// The fault of the first frame of a text, within a limit of 4 bytes.
fn fault_of(alloc: Global, text: &[u8]) -> Result<Option<FrameFault>, AllocError> {
    let mut source = MemSource::new(text.to_vec(alloc)?, Vec::new(alloc));
    Ok(read_frame(alloc, &mut source, 4).err())
}

#[test]
fn frames_are_refused(rt: HostRuntime) -> Result<(), Fail> {
    let cut = fault_of(rt.alloc(), &[0, 0, 0])?;
    let long = fault_of(rt.alloc(), &[0, 0, 0, 5])?;
    check(&rt, cut == Some(FrameFault::Truncated));
    check(&rt, long == Some(FrameFault::TooLong { length: 5 }));
    Ok(())
}

#[test]
fn no_frame_is_at_the_end(rt: HostRuntime) -> Result<(), Fail> {
    let none = fault_of(rt.alloc(), &[])?;
    check(&rt, none.is_none());
    Ok(())
}
