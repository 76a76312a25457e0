use super::*;
use spans::{Span, visible};

fn span(from: u64, to: u64, chunk: u32) -> Span {
    Span { from, to, chunk }
}

#[test]
fn the_newest_is_seen_and_a_gap_is_not(rt: HostRuntime) -> Result<(), Fail> {
    let chunks = [chunk(1, 0, 10, 5), chunk(2, 4, 3, 7), chunk(3, 12, 2, 6)];
    let spans = visible(rt.alloc(), &chunks)?;
    let wanted = [
        span(0, 4, 0),
        span(4, 7, 1),
        span(7, 10, 0),
        span(12, 14, 2),
    ];
    check(&rt, spans.as_slice() == wanted.as_slice());
    Ok(())
}

#[test]
fn of_equal_times_the_later_is_seen(rt: HostRuntime) -> Result<(), Fail> {
    let chunks = [chunk(1, 0, 4, 5), chunk(2, 0, 4, 5)];
    let spans = visible(rt.alloc(), &chunks)?;
    check(&rt, spans.as_slice() == [span(0, 4, 1)].as_slice());
    Ok(())
}
