ghost use Rattle.std.specs.Prelude.{◌≡◌, IfOk, map, option_copied};
ghost use Rattle.name_core.specs.Pages.{in_directory, is_below_past, is_child_past, page_of, IsPage};
ghost use Rattle.mem_keeper.specs.Items.{listed, named};
ghost use Rattle.mem_keeper.specs.Names.{child_of};

use crate::below_path::Below;
use crate::directory::Children;
use crate::names::NameTree;
use crate::tree::Node;
use entry::Entry;
use std::alloc::{AllocError, Global};
use weed_base::{Name, Path};

/// An entry by the last part of its path.
fn child(alloc: Global, node: &Node) -> Result<(Name, Entry), AllocError>
    ensures { IfOk result (λ item. item ≡ child_of (named node.now)) }
{
    let name = match node.path.name() {
        Some(name) => Name::new(alloc, name)?,
        None => Name::of(Vec::new(alloc)),
    };
    Ok((name, node.entry.copy(alloc)?))
}

/// The entries of nodes by the last parts of their paths.
fn children(alloc: Global, nodes: &[&Node]) -> Result<Vec<(Name, Entry)>, AllocError>
    ensures { IfOk result (λ page. page.items ≡ map child_of (listed nodes.now)) }
{
    let mut page = Vec::with_capacity(alloc, nodes.len())?;
    for node in nodes {
        page.push(child(alloc, node)?)?;
    }
    Ok(page)
}

fn item(alloc: Global, node: &Node) -> Result<(Path, Entry), AllocError>
    ensures { IfOk result (λ item. item ≡ named node.now) }
{
    Ok((node.path.copy(alloc)?, node.entry.copy(alloc)?))
}

/// The entries of nodes by their paths.
fn items(alloc: Global, nodes: &[&Node]) -> Result<Vec<(Path, Entry)>, AllocError>
    ensures { IfOk result (λ page. page.items ≡ listed nodes.now) }
{
    let mut page = Vec::with_capacity(alloc, nodes.len())?;
    for node in nodes {
        page.push(item(alloc, node)?)?;
    }
    Ok(page)
}

impl NameTree {
    /// The first `room` entries in a directory, by their names in it, with names past `after`, in byte order.
    pub fn children_after(
        &self,
        alloc: Global,
        dir: &Path,
        after: Option<&Name>,
        room: u32,
    ) -> Result<Vec<(Name, Entry)>, AllocError>
        ensures first { IfOk result (λ page. in_directory dir.now page.items ≡ page_of self.now room (is_child_past dir.now (option_copied after.entry))) }
        ensures page { IfOk result (λ page. IsPage room (is_child_past dir.now (option_copied after.entry)) (in_directory dir.now page.items)) }
    {
        let wanted = Children { dir, after };
        let found = self.first(alloc, &wanted, room)?;
        children(alloc, &found)
    }

    /// The first `room` entries below a path that stand past `after`, in the order of paths.
    pub fn below_after(
        &self,
        alloc: Global,
        top: &Path,
        after: Option<&Path>,
        room: u32,
    ) -> Result<Vec<(Path, Entry)>, AllocError>
        ensures first { IfOk result (λ page. page.items ≡ page_of self.now room (is_below_past top.now (option_copied after.entry))) }
        ensures page { IfOk result (λ page. IsPage room (is_below_past top.now (option_copied after.entry)) page.items) }
    {
        let wanted = Below { top, after };
        let found = self.first(alloc, &wanted, room)?;
        items(alloc, &found)
    }
}
