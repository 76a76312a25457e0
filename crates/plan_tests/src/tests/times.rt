use super::*;

#[test]
fn times_rise_where_the_clock_stands_or_falls(rt: HostRuntime) -> Result<(), Fail> {
    let mut keeper = MemKeeper::new(rt.alloc());
    let first = make(rt.alloc(), &mut keeper, b"/a", 50, 0)?;
    let second = make(rt.alloc(), &mut keeper, b"/b", 50, first)?;
    let third = make(rt.alloc(), &mut keeper, b"/c", 20, second)?;
    check(&rt, first == 50 && second == 51 && third == 52);
    Ok(())
}
