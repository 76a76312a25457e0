ghost use Rattle.std.specs.Prelude.{IfOk};
ghost use Rattle.name_plans.specs.Planning.{IsCommand};

use super::*;

/// Writes an empty file.
fn a_file(alloc: Global, text: &[u8]) -> Result<Command, Fail>
    ensures { IfOk result IsCommand }
{
    Ok(Command::Write {
        path: Path::read(alloc, text)?,
        at: None,
        chunks: CommandChunks::of(Vec::new(alloc)),
        length: 0,
        mime: Mime::of(Vec::new(alloc)),
        md5: None,
    })
}

/// Names with a file alone in a directory.
fn one_file(alloc: Global) -> Result<MemKeeper, Fail> {
    let mut keeper = MemKeeper::new(alloc);
    let command = a_file(alloc, b"/a/h.txt")?;
    accept(alloc, &mut keeper, &command, 5_000_000_000, 0)?;
    Ok(keeper)
}

/// The name of the refusal of a removal of that path alone.
fn removal_of(alloc: Global, keeper: &mut MemKeeper, text: &[u8]) -> Result<&'static str, Fail> {
    let path = Path::read(alloc, text)?;
    let command = Command::Remove {
        path,
        recursive: false,
    };
    Ok(refusal_of(alloc, keeper, &command))
}

#[test]
fn a_directory_goes_alone_where_it_is_empty(rt: HostRuntime) -> Result<(), Fail> {
    let mut keeper = one_file(rt.alloc())?;
    check(
        &rt,
        removal_of(rt.alloc(), &mut keeper, b"/a")? == "NotEmpty",
    );
    Ok(())
}

#[test]
fn the_root_stays(rt: HostRuntime) -> Result<(), Fail> {
    let mut keeper = one_file(rt.alloc())?;
    check(
        &rt,
        removal_of(rt.alloc(), &mut keeper, b"/")? == "RootFixed",
    );
    Ok(())
}

/// Whether that file stands in the way of a new directory.
fn is_in_the_way(
    alloc: Global,
    keeper: &mut MemKeeper,
    text: &[u8],
    file: &[u8],
) -> Result<bool, Fail> {
    let path = Path::read(alloc, text)?;
    match plan(alloc, keeper, &Command::MakeDir { path }, 1, 0) {
        Err(PlanFault::Refused(Refusal::IsFile(found))) => Ok(found.text() == file),
        _ => Ok(false),
    }
}

#[test]
fn no_directory_stands_below_a_file(rt: HostRuntime) -> Result<(), Fail> {
    let mut keeper = one_file(rt.alloc())?;
    check(
        &rt,
        is_in_the_way(rt.alloc(), &mut keeper, b"/a/h.txt/c", b"/a/h.txt")?,
    );
    Ok(())
}
