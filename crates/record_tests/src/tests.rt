use std::process::Abort;
use std::test::Fail;

mod entry_texts;
mod frame_texts;
mod record_texts;

fn check(rt: &impl Abort, is_so: bool) {
    assert!(rt; is_so);
}
