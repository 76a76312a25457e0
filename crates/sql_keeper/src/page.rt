ghost use Rattle.std.specs.Prelude.{◌≡◌, IfOk, IfSome, OnOk, IsTrue, map};
ghost use Rattle.std.specs.declared.cmp.Ordering.TheVariants.{Less};
ghost use Rattle.weed_base.specs.PathOrder.{path_cmp};
ghost use Rattle.entry.specs.Entry.{IsValid};
ghost use Rattle.name_core.specs.Pages.{IsPage};
ghost use Rattle.mem_keeper.specs.Names.{child_of};
ghost use Rattle.sql_keeper.specs.Follows.{Follows};

use crate::database::item_of;
use crate::trouble::Trouble;
use entry::Entry;
use mem_keeper::{Place, Wanted, order};
use sqlite::Row;
use std::alloc::{AllocError, Global};
use weed_base::{Name, Path};

/// Whether a path comes behind the last of a page, if there is one.
fn follows(page: &[(Path, Entry)], path: &Path) -> bool
    ensures { IsTrue result → Follows page.now path.now }
{
    match page.last() {
        Some(item) => order(&item.0, path).is_lt(),
        None => true,
    }
}

/// Adds an item to a page, where it stays one.
fn add<W: Wanted>(
    alloc: Global,
    wanted: &W,
    room: u32,
    page: &mut Vec<(Path, Entry)>,
    item: (Path, Entry),
) -> Result<(), Trouble>
    requires valid { IsValid item.1 }
    ensures { IsPage room (W.belongs wanted.now) page.old.items → OnOk result (IsPage room (W.belongs wanted.now) page.new.items) }
{
    // The text shows that the path is one.
    let _ = item.0.text();
    if page.len() >= room as usize || item.0.name().is_none() || !follows(page, &item.0) {
        return Err(Trouble::Refused);
    }
    let place = wanted.place(alloc, &item.0)?;
    match place {
        Place::Within => {
            page.push(item)?;
            Ok(())
        }
        _ => Err(Trouble::Refused),
    }
}

/// The page of rows, where they are one.
pub fn page_of_rows<W: Wanted>(
    alloc: Global,
    wanted: &W,
    room: u32,
    rows: &[Row],
) -> Result<Vec<(Path, Entry)>, Trouble>
    ensures { IfOk result (λ page. IsPage room (W.belongs wanted.now) page.items) }
{
    let mut page = Vec::new(alloc);
    for row in rows {
        let item = item_of(alloc, row)?;
        add(alloc, wanted, room, &mut page, item)?;
    }
    Ok(page)
}

/// An item by the last part of its path.
fn child(alloc: Global, item: (Path, Entry)) -> Result<(Name, Entry), AllocError>
    ensures { IfOk result (λ made. made ≡ child_of item) }
{
    let (path, entry) = item;
    let name = match path.name() {
        Some(name) => Name::new(alloc, name)?,
        None => Name::of(Vec::new(alloc)),
    };
    Ok((name, entry))
}

/// The items by the last parts of their paths.
pub fn children(alloc: Global, page: Vec<(Path, Entry)>) -> Result<Vec<(Name, Entry)>, AllocError>
    ensures { IfOk result (λ made. made.items ≡ map child_of page.items) }
{
    let mut made = Vec::with_capacity(alloc, page.len())?;
    for item in page {
        made.push(child(alloc, item)?)?;
    }
    Ok(made)
}
