ghost use Rattle.std.specs.Prelude.{IfOk};
ghost use Rattle.name_plans.specs.Planning.{IsCommand};

use super::*;

/// A move between two paths.
fn a_move(alloc: Global, from: &[u8], to: &[u8]) -> Result<Command, Fail>
    ensures { IfOk result IsCommand }
{
    let from = Path::read(alloc, from)?;
    let to = Path::read(alloc, to)?;
    Ok(Command::Move { from, to })
}

/// Names with three entries below `/d`.
fn three_below(alloc: Global) -> Result<MemKeeper, Fail> {
    let mut keeper = MemKeeper::new(alloc);
    make(alloc, &mut keeper, b"/d/a", 1, 0)?;
    make(alloc, &mut keeper, b"/d/b", 1, 0)?;
    make(alloc, &mut keeper, b"/d/b/c", 1, 0)?;
    Ok(keeper)
}

/// Whether a record drops first, and then puts four times.
fn drops_and_puts_four(made: &Record) -> bool {
    match made.changes.as_slice() {
        [Change::Drop(_), puts @ ..] => {
            puts.len() == 4 && puts.iter().all(|change| matches!(change, Change::Put(..)))
        }
        _ => false,
    }
}

#[test]
fn no_path_moves_into_itself(rt: HostRuntime) -> Result<(), Fail> {
    let mut keeper = three_below(rt.alloc())?;
    let command = a_move(rt.alloc(), b"/d", b"/d/x")?;
    check(
        &rt,
        refusal_of(rt.alloc(), &mut keeper, &command) == "IntoItself",
    );
    Ok(())
}

#[test]
fn a_move_is_a_drop_and_puts(rt: HostRuntime) -> Result<(), Fail> {
    let mut keeper = three_below(rt.alloc())?;
    let command = a_move(rt.alloc(), b"/d", b"/e")?;
    let made = record_of(rt.alloc(), &mut keeper, &command, 2, 1)?;
    check(&rt, drops_and_puts_four(&made));
    Ok(())
}

#[test]
fn a_move_takes_along_what_is_below(rt: HostRuntime) -> Result<(), Fail> {
    let mut keeper = three_below(rt.alloc())?;
    let command = a_move(rt.alloc(), b"/d", b"/e")?;
    accept(rt.alloc(), &mut keeper, &command, 2, 1)?;
    check(&rt, is_there(rt.alloc(), &mut keeper, b"/e/b/c")?);
    check(&rt, !is_there(rt.alloc(), &mut keeper, b"/d")?);
    Ok(())
}

#[test]
fn no_path_moves_too_deep(rt: HostRuntime) -> Result<(), Fail> {
    let mut keeper = MemKeeper::new(rt.alloc());
    make(rt.alloc(), &mut keeper, b"/p/q", 1, 0)?;
    let deep = b"/a".repeat(rt.alloc(), 64)?;
    let command = a_move(rt.alloc(), b"/p", &deep)?;
    check(
        &rt,
        refusal_of(rt.alloc(), &mut keeper, &command) == "PathLimit",
    );
    Ok(())
}
